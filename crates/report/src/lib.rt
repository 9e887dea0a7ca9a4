// The lines that stepper prints: the header, and a line for each call. Each goes into lent room from a place on, and the
// answer is the place behind it; room that is too short cuts it off. Room and place are two parameters, for the reason that `text` gives.
#![tactic(auto)]

ghost use Rattle.std.specs.Prelude.{◌≤◌, length};
ghost use Rattle.text.specs.Text.{spaced, Put};
ghost use Rattle.report.specs.Lines.{header, barred, waits, line_text, longest_line};

use rules::Answer;
use text::{put_byte, put_bytes, put_number};

// The header.
#[tactic(auto, unfolding(crate::specs::Lines::header))]
pub fn put_header(out: &mut [u8], at: usize) -> usize
    ensures { Put out.old at header out.new result }
{
    put_bytes(b"step refusal result task entry partner next\n", out, at)
}

// A space and a number.
fn put_spaced(n: u8, out: &mut [u8], at: usize) -> usize
    ensures { Put out.old at (spaced n) out.new result }
{
    let k = put_byte(b' ', out, at);
    put_number(u64::from(n), out, k)
}

// An ended wait behind a bar.
fn put_wait(task: u8, res: u8, entry: u8, partner: u8, out: &mut [u8], at: usize) -> usize
    ensures { Put out.old at (barred task res entry partner) out.new result }
{
    let k = put_bytes(b" |", out, at);
    let l = put_spaced(task, out, k);
    let m = put_spaced(res, out, l);
    let n = put_spaced(entry, out, m);
    put_spaced(partner, out, n)
}

// The ended waits that stand in the room.
fn put_waits(ended: u8, room: &[u8], out: &mut [u8], at: usize) -> usize
    ensures { Put out.old at (waits ended room.now) out.new result }
{
    let mut place = at.min(out.len());
    let mut rest = room;
    for _ in 0..ended {
        let [task, result, entry, partner, more @ ..] = rest else {
            break;
        };
        place = put_wait(*task, *result, *entry, *partner, out, place);
        rest = more;
    }
    place
}

// A line.
pub fn put_line(step: u64, answer: Answer, room: &[u8], out: &mut [u8], at: usize) -> usize
    ensures put { Put out.old at (line_text step answer room.now) out.new result }
    ensures room_len_bound { length (line_text step answer room.now) ≤ longest_line }
{
    let a = put_number(step, out, at);
    let b = put_spaced(answer.refusal, out, a);
    let c = put_spaced(answer.result, out, b);
    let d = put_spaced(answer.task, out, c);
    let e = put_spaced(answer.entry, out, d);
    let f = put_spaced(answer.partner, out, e);
    let g = put_spaced(answer.next, out, f);
    let h = put_waits(answer.ended, room, out, g);
    put_byte(b'\n', out, h)
}
