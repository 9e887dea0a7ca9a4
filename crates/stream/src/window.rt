// The window on the input: what has been read of it and not yet been taken stands in a buffer.
// A window that reaches outside its buffer is cut to it, so each function takes every input.
ghost use Rattle.std.specs.Prelude.{◌≡◌, ◌-◌, ◌≤◌, length};
ghost use Rattle.stream.specs.Windows.{no_window, start_in, end_in, shifted, Grown};

use std::io::Read;

// What stands in the buffer from `at` to `end`; `last` where no more bytes come.
#[derive(Clone, Copy)]
pub struct Window {
    pub at: usize,
    pub end: usize,
    pub last: bool,
}

impl Window {
    ghost use Rattle.stream.specs.Windows.{within};

    // The window, cut to a buffer of so many bytes.
    pub fn within(self, room: usize) -> Window
        ensures value { result ≡ within self room }
        ensures ordered { (result.at ≤ result.end) × (result.end ≤ room) }
    {
        let end = self.end.min(room);
        Window {
            at: self.at.min(end),
            end,
            ..self
        }
    }
}

// A window on nothing yet.
pub fn unread() -> Window
    ensures { result ≡ no_window }
{
    Window {
        at: 0,
        end: 0,
        last: false,
    }
}

// Moves what stands unread to the front, and answers how much that is.
#[tactic(auto, using(crate::proofs::Shifts::moved_front))]
fn shift(w: Window, buf: &mut [u8]) -> usize
    ensures value { (result ≡ end_in w buf.old - start_in w buf.old) × (result ≤ length buf.old) }
    ensures buf_after { buf.new ≡ shifted buf.old (start_in w buf.old) (end_in w buf.old) }
{
    let shown = w.within(buf.len());
    buf.copy_within(shown.at..shown.end, 0);
    shown.end - shown.at
}

// Tells that a read failed.
fn tell_failed<R: Eprint>(rt: &R) {
    let _ = eprintln!(rt; "standard input: cannot be read; it is taken to end here");
}

// Reads once, and answers how many bytes came. A read that fails brings none, and is told.
fn read_some<R: Input + Eprint>(rt: &R, part: &mut [u8]) -> usize
    ensures { result ≤ length part.new }
{
    let mut input = rt.reader();
    match input.read(part) {
        Ok(n) => n,
        Err(_) => {
            tell_failed(rt);
            0
        }
    }
}

// The window after one read more. A read that fails ends the input, and is told.
pub fn refilled<R: Input + Eprint>(rt: &R, w: Window, buf: &mut [u8]) -> Window
    ensures { Grown w buf.old result buf.new }
{
    let n = shift(w, buf);
    let part = &mut buf[n..];
    let m = read_some(rt, part);
    Window {
        at: 0,
        end: n + m,
        last: m == 0,
    }
}

// The window with a whole head of eight bytes in it, where the input has one.
pub fn headed<R: Input + Eprint>(rt: &R, w: Window, buf: &mut [u8]) -> Window
    ensures { Grown w buf.old result buf.new }
{
    let mut n = w;
    for _ in 0..8 {
        n = topped(rt, n, buf);
    }
    n
}

// The window after one read more, where it has less than a head and more bytes may come.
fn topped<R: Input + Eprint>(rt: &R, w: Window, buf: &mut [u8]) -> Window
    ensures { Grown w buf.old result buf.new }
{
    let shown = w.within(buf.len());
    if w.last | (8 <= shown.end - shown.at) {
        return w;
    }
    refilled(rt, w, buf)
}
