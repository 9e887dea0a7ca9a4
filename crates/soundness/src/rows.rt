// The rows of the second engine against the word of those who are to be met in them: each in the row of the task that it has called.
ghost use Rattle.std.specs.Prelude.{◌≡◌, false};
ghost use Rattle.soundness.specs.Rows.{called_by, Targets, met_in, met_all};
ghost use Rattle.soundness.specs.Marks.{next_mark};

use crate::marks;
use crate::stand::is_blank_from;
use lines::mark_of;
use rules::{Core, Place, Row};
use table::place::{is_queued, partner_of};
use table::tasks::shown;

// For each task that is queued the task that it has called, 0 for all others.
pub fn targets_of(s: Core) -> [u8; 32]
    ensures { Targets s result }
{
    let mut targets = [0u8; 32];
    for (i, &k) in s.tasks.iter().enumerate() {
        let x = shown(s.created, (i + 1) as u8, k);
        targets[i + 1] = called(x.place);
    }
    targets
}

// The task on which one in this place is queued, 0 where it is queued on none.
fn called(p: Place) -> u8
    ensures { result ≡ called_by p }
{
    if is_queued(p) { partner_of(p) } else { 0 }
}

// Who is still to be met behind the row of task g, where those of the word are to be met before it; none if somebody stands there who is
// not to be met there.
fn met_in(l: [u8; 31], word: u32, targets: [u8; 32], g: u8) -> Option<u32>
    ensures { result ≡ met_in targets g word l }
{
    let mut rest = word;
    for (i, &t) in l.iter().enumerate() {
        if t == 0 {
            return is_blank_from(&l, i).then_some(rest);
        }
        if marks::has(rest, t) & (mark_of(targets, t) == g) {
            rest = marks::without(rest, t);
        } else {
            return None;
        }
    }
    Some(rest)
}

// The same, where a row that is blank throughout, as most rows are, is seen at once.
fn met_row(l: [u8; 31], word: u32, targets: [u8; 32], g: u8) -> Option<u32>
    ensures { result ≡ met_in targets g word l }
{
    if is_blank_from(&l, 0) {
        return Some(word);
    }
    met_in(l, word, targets, g)
}

// Whether the rows hold those of the word, where task 1 is bit 0, each once and in the row of the task that it has called.
pub fn rows_hold(rows: [Row; 31], targets: [u8; 32], word: u32) -> bool
    ensures { result ≡ met_all targets 1 (next_mark word false) rows }
{
    let mut rest = marks::next(word, false);
    for (i, row) in rows.iter().enumerate() {
        let Some(left) = met_row(row.line, rest, targets, (i + 1) as u8) else {
            return false;
        };
        rest = left;
    }
    marks::is_none(rest)
}
