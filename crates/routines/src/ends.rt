// The ends of a record's fields, which a call lends as words.

// The most ends that a call lends.
const MOST_ENDS: usize = 300;

// Makes a call of which the ends are the words, and keeps in these what it leaves in the ends.
pub(crate) fn with_ends<T, F: FnOnce(&mut [usize]) -> T>(words: &mut [u64], call: F) -> T
    requires { F.IsAlwaysCallable call }
{
    let mut ends = [0usize; MOST_ENDS];
    for (end, word) in ends.iter_mut().zip(words.iter()) {
        *end = *word as usize;
    }
    let answer = call(&mut ends[..words.len().min(MOST_ENDS)]);
    for (word, end) in words.iter_mut().zip(ends.iter()) {
        *word = *end as u64;
    }
    answer
}
