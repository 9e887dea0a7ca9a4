// A line against the word of those who are to be met in it, in one pass: each task stands once in the line of its place, and nowhere else.
ghost use Rattle.std.specs.Prelude.{◌≡◌, length, drop};
ghost use Rattle.lists.specs.Line.{blanks};
ghost use Rattle.soundness.specs.Check.{delays_hold, holds_in};

use crate::marks;
use rules::Core;
use table::tasks::{index_of, left_of};

// Whether the places from i on are blank.
pub fn is_blank_from(a: &[u8; 31], i: usize) -> bool
    requires { length a.now ≡ 31 }
    ensures { result ≡ blanks (drop i a.now) }
{
    a[i.min(31)..].iter().fold(0, |seen, t| seen | *t) == 0
}

// Whether the line holds each once that is to be met, and nothing else. In the word of a pass over the table task 1 is bit 0.
pub fn holds(a: &[u8; 31], word: u32) -> bool
    requires { length a.now ≡ 31 }
    ensures { result ≡ holds_in word a.now }
{
    let mut rest = marks::next(word, false);
    for (i, &t) in a.iter().enumerate() {
        if t == 0 {
            return marks::is_none(rest) & is_blank_from(a, i);
        }
        if !marks::has(rest, t) {
            return false;
        }
        rest = marks::without(rest, t);
    }
    marks::is_none(rest)
}

// The same of the delay queue, where each has at least as many ticks left as the one before: one pass, since two would look at each waiting task twice.
pub fn delays_hold(s: Core, word: u32) -> bool
    ensures { result ≡ delays_hold s word }
{
    let mut rest = marks::next(word, false);
    let mut last = 0;
    for (i, &t) in s.delays.iter().enumerate() {
        if t == 0 {
            return marks::is_none(rest) & is_blank_from(&s.delays, i);
        }
        let at = index_of(t);
        let left = left_of(s.clock, s.created, t, s.tasks[at]);
        if !marks::has(rest, t) | (left < last) {
            return false;
        }
        rest = marks::without(rest, t);
        last = left;
    }
    marks::is_none(rest)
}
