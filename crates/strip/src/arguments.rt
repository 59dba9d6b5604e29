// The arguments that the program was given.
ghost use Rattle.std.specs.Prelude.{◌≤◌, length, IfSome};

use std::env::{Env, FillError};

// Whether there are just two arguments.
pub(crate) fn are_two<E: Env>(env: &E) -> bool {
    is_there(env, 2) && !is_there(env, 3)
}

// Whether there is an argument of this number.
fn is_there<E: Env>(env: &E, number: usize) -> bool {
    let mut room = [0u8; 1];
    !matches!(env.arg(number, &mut room), Err(FillError::NotPresent))
}

// Puts an argument at the front of a buffer and answers its length; nothing where there is none, or it is longer than the buffer.
pub(crate) fn argument<E: Env>(env: &E, number: usize, buf: &mut [u8]) -> Option<usize>
    ensures { IfSome result (λ n. n ≤ length buf.new) }
{
    env.arg(number, buf).ok()
}
