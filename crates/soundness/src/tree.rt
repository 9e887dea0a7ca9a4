// The tree of held callers: no ring of holders, and stored priorities that agree with it. Where nobody is held, nothing is looked at but
// two words. Else one pass over those held, and then a climb from each, which ends at the first that is known to reach the top.
ghost use Rattle.std.specs.Prelude.{◌≡◌};
ghost use Rattle.lists.specs.Line.{line};
ghost use Rattle.lists.specs.Marks.{mark_of};
ghost use Rattle.rules.specs.State.{higher};
ghost use Rattle.soundness.specs.TreeCheck.{climbed, all_climbed, seen_of, tree_found};

use crate::marks;
use lines::{mark, mark_of};
use rules::Core;
use table::place::{higher_of, kept_of, partner_of};
use table::tasks::{index_of, shown};

// From task t to its holder, and on, up to the first that is not to be met: all on the way are met. Who is still to be met then; none in a
// ring, where that one was met on the way.
fn climb(holders: [u8; 32], word: u32, t: u8) -> Option<u32>
    ensures { result ≡ climbed holders word 31 word t }
{
    let mut rest = word;
    let mut u = t;
    for _turn in 0..31u8 {
        if !marks::has(rest, u) {
            return (!marks::has(word, u)).then_some(rest);
        }
        rest = marks::without(rest, u);
        u = mark_of(holders, u);
    }
    None
}

// Whether all of the line, who are to be met, climb to the top.
fn all_climb(held: [u8; 31], holders: [u8; 32], word: u32) -> bool
    ensures { result ≡ all_climbed holders word (line held) }
{
    let mut rest = word;
    for &t in &held {
        if t == 0 {
            return true;
        }
        let Some(left) = climb(holders, rest, t) else {
            return false;
        };
        rest = left;
    }
    true
}

// The highest of g's own priority, with which it was created, and of its mark.
fn top_of(own: u8, tops: [u8; 32], g: u8) -> u8
    ensures { result ≡ higher own (mark_of tops g) }
{
    higher_of(own, mark_of(tops, g))
}

// One pass over those held, where the tasks of the word have another current priority than the one with which they were created: the
// holder of each, if the stored priorities agree. Each caller keeps what its holder had before; `apart` are those whose current priority
// is not that of the callers met so far.
fn seen_of(s: Core, word: u32) -> Option<[u8; 32]>
    ensures { result ≡ seen_of s word }
{
    let mut apart = word;
    let mut tops = [0u8; 32];
    let mut holders = [0u8; 32];
    for &c in &s.held {
        if c == 0 {
            return marks::is_none(apart).then_some(holders);
        }
        let at = index_of(c);
        let x = shown(s.created, c, s.tasks[at]);
        let g = partner_of(x.place);
        let to = index_of(g);
        let y = shown(s.created, g, s.tasks[to]);
        let top = top_of(y.priority, tops, g);
        if kept_of(x.place) != top {
            return None;
        }
        let now = higher_of(top, x.current);
        apart = marks::put(apart, g, y.current != now);
        mark(&mut tops, g, now);
        mark(&mut holders, c, g);
    }
    marks::is_none(apart).then_some(holders)
}

// What is found of the tree, where the words say who belongs into the line of those held, and who has another current priority than the one
// with which it was created: task 1 is bit 0.
pub fn is_tree(s: Core, held: u32, changed: u32) -> bool
    ensures { result ≡ tree_found s held changed }
{
    let apart = marks::next(changed, false);
    if marks::is_none(held) {
        return marks::is_none(apart);
    }
    let line = s.held;
    let Some(holders) = seen_of(s, apart) else {
        return false;
    };
    all_climb(line, holders, marks::next(held, false))
}
