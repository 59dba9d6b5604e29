// What a call answers.
ghost use Rattle.std.specs.Prelude.{◌≡◌, ◌∷◌, [], MatchOption};
ghost use Rattle.std.specs.Int.{from_bool};
ghost use Rattle.keys.specs.Keys.{key_number};
ghost use Rattle.rules.specs.Table.{words_of};
ghost use Rattle.routines.specs.Told.{list_of, IsSuccess, TellsField, TellsSize};

use classes::Class;
use keys::{KeyToken, key_number};
use records::{Field, Size};
use refusals::{Refusal, fault_number};
use rules::{Head, Rule, WORDS, put_rule};
use std::io;
use std::io::Print;
use stripping::Cut;
use tokens::{ClassToken, Number};
use wire::output::{lines_out, words_out};

// The values of a success. A rule has the most.
#[derive(Clone, Copy, Debug, PartialEq, Eq)]
pub enum Values {
    None,
    One([u64; 1]),
    Two([u64; 2]),
    Three([u64; 3]),
    Rule([u64; WORDS]),
}

// Which of its routine's successes a success is, and its values. It is a number, since each routine has a list of its own (tests/calls/README.md).
#[derive(Clone, Copy, Debug, PartialEq, Eq)]
pub struct Success {
    pub which: u64,
    pub values: Values,
}

pub type Answer = Result<Success, Refusal>;

impl Values {
    // The values, one behind another.
    pub fn words(&self) -> &[u64]
        ensures { result.now ≡ list_of self.now }
    {
        match self {
            Values::None => &[],
            Values::One(words) => words,
            Values::Two(words) => words,
            Values::Three(words) => words,
            Values::Rule(words) => words,
        }
    }

    // The success that has these values, and is so far down in the routine's list.
    fn at(self, which: u64) -> Success
        ensures { IsSuccess which (list_of self) result }
    {
        Success {
            which,
            values: self,
        }
    }
}

// Prints the refusal's number, its place or which success it is, and the values, their number first.
pub fn answer_out<P: Print>(out: &P, answer: Answer) -> io::Result<()> {
    match answer {
        Ok(success) => {
            lines_out(out, &[0, success.which])?;
            words_out(out, success.values.words())
        }
        Err(refusal) => {
            lines_out(out, &[fault_number(refusal.fault), refusal.place])?;
            words_out(out, Values::None.words())
        }
    }
}

impl From<bool> for Success {
    ghost from_gives = { λ b. IsSuccess 0 (from_bool b ∷ []) };

    fn from(yes: bool) -> Success {
        Values::One([u64::from(yes)]).at(0)
    }
}

impl From<usize> for Success {
    ghost from_gives = { λ n. IsSuccess 0 (n ∷ []) };

    fn from(n: usize) -> Success {
        Values::One([n as u64]).at(0)
    }
}

impl From<Head> for Success {
    ghost from_gives = { λ h. IsSuccess 0 (h.items ∷ h.rules ∷ []) };

    fn from(head: Head) -> Success {
        Values::Two([head.items as u64, head.rules as u64]).at(0)
    }
}

impl From<Class> for Success {
    ghost from_gives = { λ c. IsSuccess 0 (c.level ∷ c.marks ∷ []) };

    fn from(class: Class) -> Success {
        Values::Two([class.level, class.marks]).at(0)
    }
}

impl From<Rule> for Success {
    ghost from_gives = { λ r. IsSuccess 0 (words_of r) };

    fn from(rule: Rule) -> Success {
        let mut words = [0; WORDS];
        put_rule(rule, &mut words, 0);
        Values::Rule(words).at(0)
    }
}

impl From<Cut> for Success {
    ghost from_gives = { λ c. IsSuccess 0 (c.used ∷ c.len ∷ c.records ∷ []) };

    fn from(cut: Cut) -> Success {
        Values::Three([cut.used as u64, cut.len as u64, cut.records as u64]).at(0)
    }
}

impl From<Field> for Success {
    ghost from_gives = { TellsField };

    fn from(field: Field) -> Success {
        match field {
            Field::Comma(len) => Values::One([len as u64]).at(0),
            Field::Line(len) => Values::One([len as u64]).at(1),
            Field::End(len) => Values::One([len as u64]).at(2),
            Field::Cr(len) => Values::One([len as u64]).at(3),
            Field::Open => Values::None.at(4),
            Field::Bad => Values::None.at(5),
        }
    }
}

impl From<Size> for Success {
    ghost from_gives = { TellsSize };

    fn from(size: Size) -> Success {
        match size {
            Size::Whole(row) => Values::Two([row.fields as u64, row.bytes as u64]).at(0),
            Size::More => Values::None.at(1),
            Size::Bad => Values::None.at(2),
        }
    }
}

impl From<Number> for Success {
    ghost from_gives = { λ n. IsSuccess 0 (n.value ∷ n.len ∷ []) };

    fn from(number: Number) -> Success {
        Values::Two([number.value, number.len as u64]).at(0)
    }
}

impl From<ClassToken> for Success {
    ghost from_gives = { λ t. IsSuccess 0 (t.class.level ∷ t.class.marks ∷ t.len ∷ []) };

    fn from(token: ClassToken) -> Success {
        let class = token.class;
        Values::Three([class.level, class.marks, token.len as u64]).at(0)
    }
}

impl From<KeyToken> for Success {
    ghost from_gives = { λ t. IsSuccess 0 (key_number t.key ∷ t.len ∷ []) };

    fn from(token: KeyToken) -> Success {
        Values::Two([key_number(token.key), token.len as u64]).at(0)
    }
}

// What is not there is the second success of each routine that looks for it.
impl<T: Into<Success>> From<Option<T>> for Success {
    ghost from_gives = { λ found r. MatchOption found (IsSuccess 1 [] r) (λ x. T.converts x r) };

    fn from(found: Option<T>) -> Success {
        match found {
            Some(it) => it.into(),
            None => Values::None.at(1),
        }
    }
}

impl Success {
    // Of checking, that every rule is met is the first success, and a rule that is not met the second.
    pub fn of_checking(unmet: Option<usize>) -> Success
        ensures { MatchOption unmet (IsSuccess 0 [] result) (λ r. IsSuccess 1 (r ∷ []) result) }
    {
        match unmet {
            Some(r) => Values::One([r as u64]).at(1),
            None => Values::None.at(0),
        }
    }
}
