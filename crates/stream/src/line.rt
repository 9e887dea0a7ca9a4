// Lines of the input on their way to output. The last line may lack its line end; behind a line end there is no empty last line. A line that does
// not fit the buffer is told and skipped to its end.
ghost use Rattle.std.specs.Prelude.{◌≡◌, ◌≤◌, ◌==◌, true, false, length, position};
ghost use Rattle.text.specs.Text.{number_after};
ghost use Rattle.stream.specs.Lines.{no_lines, kind_of, front_of, number_behind, skips_behind, WindowBehind};
ghost use Rattle.stream.specs.Windows.{moved_to, Grown};

use crate::errors::tell_long;
use crate::flow::{Flow, begun, done, fed, passed};

// The flow of input and output, the number of the line that comes next, and whether that is the rest of one that is too long.
#[derive(Clone, Copy)]
pub struct Lines {
    pub flow: Flow,
    pub number: u64,
    pub skips: bool,
}

// What stands at the front of the window: a line; the rest of one that is too long, to its end; bytes that fill the buffer without a line end;
// less than a line, of which more may come; or nothing, and nothing comes.
#[derive(Clone, Copy)]
pub enum Kind {
    Line,
    Rest,
    Long,
    More,
    Over,
}

// Where in the buffer it begins, where it ends, without its line end, and what it is.
#[derive(Clone, Copy)]
pub struct Piece {
    pub from: usize,
    pub to: usize,
    pub kind: Kind,
}

// Before the first line.
pub fn first() -> Lines
    ensures { result ≡ no_lines }
{
    let flow = begun();
    Lines {
        flow,
        number: 1,
        skips: false, // no line is too long yet
    }
}

// The first place of a byte.
fn place_of(byte: u8, text: &[u8]) -> Option<usize>
    ensures { result ≡ position (λ x. x == byte) text.now }
{
    text.iter().position(|&b| b == byte)
}

// What it is, by whether it is all of a line or of its rest, no more bytes come, and it fills the buffer.
fn kind_of(whole: bool, skips: bool, last: bool, fills: bool) -> Kind
    ensures { result ≡ kind_of whole skips last fills }
{
    if whole {
        return if skips { Kind::Rest } else { Kind::Line };
    }
    if last {
        return Kind::Over;
    }
    if fills { Kind::Long } else { Kind::More }
}

// What stands at the front of the window.
pub fn front(l: Lines, buf: &[u8]) -> Piece
    ensures value { result ≡ front_of l buf.now }
    ensures from_le_to { (result.from ≤ result.to) × (result.to ≤ length buf.now) }
{
    let w = l.flow.window.within(buf.len());
    let unread = &buf[w.at..w.end];
    let stop = w.at + place_of(b'\n', unread).unwrap_or(unread.len());
    let whole = (stop < w.end) | (w.last & (w.at < w.end));
    Piece {
        from: w.at,
        to: stop,
        kind: kind_of(whole, l.skips, w.last, unread.len() == buf.len()),
    }
}

// Behind a line or the rest of one, with output up to `place`.
fn ended<R: Print + Eprint>(rt: &R, l: Lines, stop: usize, place: usize, out: &[u8]) -> Lines
    ensures number_value { (result.number ≡ number_after l.number) × (result.skips ≡ false) }
    ensures window_value { result.flow.window ≡ moved_to l.flow.window (number_after stop) }
{
    let next = stop.wrapping_add(1);
    Lines {
        flow: passed(rt, l.flow, next, place, out),
        number: l.number.wrapping_add(1),
        skips: false,
    }
}

// Behind bytes that fill the buffer, up to `stop`. That their line is too long is told once.
fn skipping<R: Print + Eprint>(rt: &R, l: Lines, stop: usize, out: &[u8]) -> Lines
    ensures number_value { (result.number ≡ l.number) × (result.skips ≡ true) }
    ensures window_value { result.flow.window ≡ moved_to l.flow.window stop }
{
    if !l.skips {
        tell_long(rt, l.number, stop);
    }
    Lines {
        flow: passed(rt, l.flow, stop, l.flow.waits, out),
        skips: true,
        ..l
    }
}

// With more input.
fn supplied<R: Input + Print + Eprint>(rt: &R, l: Lines, buf: &mut [u8], out: &[u8]) -> Lines
    ensures number_value { (result.number ≡ l.number) × (result.skips ≡ l.skips) }
    ensures grown { Grown l.flow.window buf.old result.flow.window buf.new }
{
    Lines {
        flow: fed(rt, l.flow, buf, out),
        ..l
    }
}

// Behind the last line.
fn over<R: Print + Eprint>(rt: &R, l: Lines, out: &[u8]) -> Lines
    ensures number_value { (result.number ≡ l.number) × (result.skips ≡ l.skips) }
    ensures window_value { result.flow.window ≡ l.flow.window }
{
    Lines {
        flow: done(rt, l.flow, out),
        ..l
    }
}

// Behind what stands at the front of the window, with output for it up to `place`. Where that is less than a line, there is more input instead.
pub fn behind<R: Input + Print + Eprint>(
    rt: &R,
    l: Lines,
    p: Piece,
    place: usize,
    buf: &mut [u8],
    out: &[u8],
) -> Lines
    ensures number_value { (result.number ≡ number_behind p.kind l.number) × (result.skips ≡ skips_behind p.kind l.skips) }
    ensures window_behind { WindowBehind p.kind p.to l.flow.window buf.old result.flow.window buf.new }
{
    match p.kind {
        Kind::Line | Kind::Rest => ended(rt, l, p.to, place, out),
        Kind::Long => skipping(rt, l, p.to, out),
        Kind::More => supplied(rt, l, buf, out),
        Kind::Over => over(rt, l, out),
    }
}
