// Input on its way to output: what a program keeps of both from turn to turn.
ghost use Rattle.std.specs.Prelude.{◌≡◌, false};
ghost use Rattle.stream.specs.Outputs.{waits_behind};
ghost use Rattle.stream.specs.Windows.{no_flow, moved_to, Grown};

use crate::output::{drained, flushed};
use crate::window::{Window, refilled, unread};

// The window on the input, how much output waits, and whether it goes on.
#[derive(Clone, Copy)]
pub struct Flow {
    pub window: Window,
    pub waits: usize,
    pub goes: bool,
}

// Before the first byte.
pub fn begun() -> Flow
    ensures { result ≡ no_flow }
{
    let window = unread();
    Flow {
        window,
        waits: 0,
        goes: true,
    }
}

// Behind what was taken of the input up to `at`, with output up to `place`. It goes on where that can be written.
pub fn passed<R: Print + Eprint>(rt: &R, f: Flow, at: usize, place: usize, out: &[u8]) -> Flow
    ensures { (result.window ≡ moved_to f.window at) × (result.waits ≡ waits_behind out.now place) }
{
    let o = drained(rt, out, place);
    let window = Window { at, ..f.window };
    Flow {
        window,
        waits: o.waits,
        goes: o.writes,
    }
}

// With more input. What waits is written first, for whoever feeds it line by line.
pub fn fed<R: Input + Print + Eprint>(rt: &R, f: Flow, buf: &mut [u8], out: &[u8]) -> Flow
    ensures { Grown f.window buf.old result.window buf.new × (result.waits ≡ 0) }
{
    let o = flushed(rt, out, f.waits);
    let window = refilled(rt, f.window, buf);
    Flow {
        window,
        waits: o.waits,
        goes: o.writes,
    }
}

// At its end: what waits is written.
pub fn done<R: Print + Eprint>(rt: &R, f: Flow, out: &[u8]) -> Flow
    ensures { (result.window ≡ f.window) × (result.waits ≡ 0) × (result.goes ≡ false) }
{
    let o = flushed(rt, out, f.waits);
    Flow {
        waits: o.waits,
        goes: false,
        ..f
    }
}
