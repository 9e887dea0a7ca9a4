// The words that a program is started with.
ghost use Rattle.std.specs.Prelude.{◌≤◌, length};

use std::env::{Env, FillError};

// How many there are, the program's own name among them; they are counted up to `most`. A word is asked for by its number, so the loop counts.
pub fn arg_count<R: Env>(rt: &R, most: usize) -> usize
    ensures { result ≤ most }
{
    let mut room = [0u8; 1];
    for i in 0..most {
        if let Err(FillError::NotPresent) = rt.arg(i, &mut room) {
            return i;
        }
    }
    most
}

// Puts the word with this number, 0 for the program's own name, at the start of the room. The answer is its length, or 0 where it is missing or longer than
// the room.
pub fn arg<R: Env>(rt: &R, i: usize, room: &mut [u8]) -> usize
    ensures { result ≤ length room.new }
{
    rt.arg(i, room).unwrap_or(0)
}
