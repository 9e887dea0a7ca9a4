// The text of a call, and the record of what a line says: each is put into lent room from a place on, and the answer is the place behind it;
// room that is too short cuts it off. A text is made in a row of its own: no call's text fills it.
ghost use Rattle.std.specs.Prelude.{◌≡◌, cond, ◌++◌};
ghost use Rattle.text.specs.Text.{spaced, Put};
ghost use Rattle.script.specs.CallText.{spaced_time, entry, entries, open_text, text_of};
ghost use Rattle.script.specs.Rows.{Grown};
ghost use Rattle.script.specs.Says.{Fits, record_of};

use crate::Line;
use crate::row::Row;
use calls::{Call, CallMode, SelectMode};
use text::put_bytes;

// A word and a duration.
fn with_time(row: Row, word: &[u8], d: i32) -> Row
    ensures { Grown row (word.now ++ spaced_time d) result }
{
    let k = row.with_text(word);
    let distance = u64::from(d.unsigned_abs());
    if d < 0 {
        return k.with_text(b" -").with_number(distance);
    }
    k.with_spaced(distance)
}

// A word and two numbers.
fn with_pair(row: Row, word: &[u8], a: u8, b: u8) -> Row
    ensures { Grown row (word.now ++ (spaced a ++ spaced b)) result }
{
    let k = row.with_text(word);
    let l = k.with_spaced(u64::from(a));
    l.with_spaced(u64::from(b))
}

// An entry of an open set, where it is open.
fn with_entry(row: Row, is_open: bool, mark: u8, digit: u8) -> Row
    ensures { Grown row (entry is_open mark digit) result }
{
    if is_open {
        return row.with_byte(mark).with_byte(digit);
    }
    row
}

// What stands in front of the next entry: a comma once there was one.
fn next_mark(is_open: bool, mark: u8) -> u8
    ensures { result ≡ cond is_open 44 mark }
{
    if is_open { b',' } else { mark }
}

// The entries of an open set that is not empty.
fn with_entries(row: Row, set: u8) -> Row
    ensures { Grown row (entries 8 49 32 set) result }
{
    let mut r = row;
    let mut rest = set;
    let mut mark = b' ';
    for digit in b'1'..b'9' {
        let is_open = rest % 2 == 1;
        r = with_entry(r, is_open, mark, digit);
        mark = next_mark(is_open, mark);
        rest /= 2;
    }
    r
}

// A blank and an open set.
fn with_open(row: Row, set: u8) -> Row
    ensures { Grown row (open_text set) result }
{
    if set == 0 {
        return row.with_text(b" none");
    }
    with_entries(row, set)
}

fn with_entry_call(row: Row, target: u8, entry: u8, mode: CallMode) -> Row
    ensures { Grown row (text_of (Call.Call target entry mode)) result }
{
    let k = with_pair(row, b"CALL", target, entry);
    match mode {
        CallMode::Simple => k,
        CallMode::Timed(d) => with_time(k, b" timed", d),
        CallMode::Conditional => k.with_text(b" conditional"),
    }
}

fn with_select(row: Row, set: u8, mode: SelectMode) -> Row
    ensures { Grown row (text_of (Call.Select set mode)) result }
{
    let k = with_open(row.with_text(b"SELECT"), set);
    match mode {
        SelectMode::Plain => k,
        SelectMode::Delay(d) => with_time(k, b" delay", d),
        SelectMode::Else => k.with_text(b" else"),
    }
}

// The text of a call. Its numbers are those of its types, so it is short.
pub(crate) fn with_call(row: Row, c: Call) -> Row
    ensures grown { Grown row (text_of c) result }
    ensures fits { Fits c }
{
    match c {
        Call::Create { priority, entries } => with_pair(row, b"CREATE", priority, entries),
        Call::Delay(d) => with_time(row, b"DELAY", d),
        Call::Call {
            target,
            entry,
            mode,
        } => with_entry_call(row, target, entry, mode),
        Call::Select { open, mode } => with_select(row, open, mode),
        Call::End => row.with_text(b"END"),
        Call::Finish => row.with_text(b"FINISH"),
        Call::Tick => row.with_text(b"TICK"),
        Call::Advance(n) => row.with_text(b"ADVANCE").with_spaced(u64::from(n)),
    }
}

// The text of a call.
pub fn put_call(c: Call, out: &mut [u8], at: usize) -> usize
    ensures { Put out.old at (text_of c) out.new result }
{
    let row = with_call(Row::empty(), c);
    put_bytes(row.text(), out, at)
}

// The record of what a line says; nothing where it says no call.
pub fn put_record(line: Line, out: &mut [u8], at: usize) -> usize
    ensures { Put out.old at (record_of line) out.new result }
{
    match line {
        Line::Nothing => at.min(out.len()),
        Line::Says(c) => {
            let mut room = [0u8; 10];
            let n = calls::write_record(c, &mut room).unwrap();
            put_bytes(&room[..n], out, at)
        }
        Line::Unread => at.min(out.len()),
    }
}
