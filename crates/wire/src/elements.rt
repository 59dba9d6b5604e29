// What a lent buffer holds.
ghost use Rattle.std.specs.Prelude.{◌≡◌, ◌<◌, ◌≢◌, ◌↔◌, ℕ, IfSome, IsSome, true, ⊤};

// An element of a buffer: a word stands for it, and tells it.
pub trait Element: Copy {
    // Whether a word stands for an element, and whether for this one.
    ghost is_word: { ℕ → Type 0 };

    ghost stands_for: { ℕ → Self → Type 0 };

    // The element that a word stands for, if it does for any.
    fn from_word(word: u64) -> Option<Self>
        ensures some { IsSome result ↔ is_word word }
        ensures element { IfSome result (stands_for word) };

    // A word that stands for the element.
    fn to_word(self) -> u64
        ensures { stands_for result self };
}

// A byte is its number.
impl Element for u8 {
    ghost is_word = { λ w. w < 256 };

    ghost stands_for = { λ w b. w ≡ b };

    fn from_word(word: u64) -> Option<u8> {
        u8::try_from(word).ok()
    }

    fn to_word(self) -> u64 {
        u64::from(self)
    }
}

// A word is itself.
impl Element for u64 {
    ghost is_word = { λ _. ⊤ };

    ghost stands_for = { λ w x. w ≡ x };

    fn from_word(word: u64) -> Option<u64> {
        Some(word)
    }

    fn to_word(self) -> u64 {
        self
    }
}

// A bool is any word but 0 for yes, and told as 1.
impl Element for bool {
    ghost is_word = { λ _. ⊤ };

    ghost stands_for = { λ w b. (w ≢ 0) ↔ (b ≡ true) };

    fn from_word(word: u64) -> Option<bool> {
        Some(word != 0)
    }

    fn to_word(self) -> u64 {
        u64::from(self)
    }
}
