// Whole logs, from standard input to standard output: what stepper and replay share.
#![tactic(auto)]

ghost use Rattle.std.specs.Prelude.{◌-◌, ◌≤◌, min, ◌≡◌, true};
ghost use Rattle.text.specs.Text.{Uncut};
ghost use Rattle.report.specs.Lines.{header, longest_line};
ghost use Rattle.stream.specs.Outputs.{spare, Free};
ghost use Rattle.session.specs.Turn.{turn_of, turned_of};
ghost use Rattle.logs.specs.Logs.{part_of, bytes_in, is_last, begun_of, place_behind, Moved, Supplied, Onward};
ghost use Rattle.logs.specs.Rests.{dropped_of, Skipped, number_at, head_of, Headed};

use calls::word;
use report::put_header;
use rules::{Second, Supervisor};
use session::engines::Engine;
use session::turns::{Next, Session, Turned, turn};
use std::env::Env;
use stream::flow::{Flow, begun, fed, passed};
use stream::output::flushed;
use stream::window::{Window, headed, refilled};
use stream::words;

// The bytes of a log that goes on to the end of the input.
const ENDLESS: u64 = u64::MAX;

// A log: the flow of input and output, the clock that it starts with, the bytes that it still has, and whether it goes on.
#[derive(Clone, Copy)]
pub struct Log {
    pub flow: Flow,
    pub clock: u32,
    pub left: u64,
    pub goes: bool,
}

// The smaller of a number of bytes and what the log still has.
fn shorter(n: usize, left: u64) -> usize
    ensures { result ≡ min n left }
{
    left.min(n as u64) as usize
}

// What is left of a log behind n of its bytes.
fn less(left: u64, n: usize) -> u64
    ensures { result ≡ left - n }
{
    left.saturating_sub(n as u64)
}

// What stands of a log in the window on a buffer of n bytes; `last` where no more bytes of the log come.
fn part(w: Window, left: u64, n: usize) -> Window
    ensures { (result ≡ part_of w left n) × (result.at ≤ result.end) × (result.end ≤ n) }
{
    let shown = w.within(n);
    let many = shorter(shown.end - shown.at, left);
    Window {
        end: shown.at + many,
        last: w.last | (left <= many as u64),
        ..shown
    }
}

// A log from its start: the header is printed, whole, and behind it there is room for a line. That there is room (`Free`), and that the log goes on, is
// said at each function that needs it: it is no invariant of a log, since the buffer is another value, and a log may have ended.
fn started(l: Log, out: &mut [u8]) -> Log
    requires { Free spare out.old l.flow.waits }
    ensures value { result ≡ begun_of l out.old }
    ensures uncut { Uncut out.old l.flow.waits header out.new }
    ensures free { Free longest_line out.new result.flow.waits }
{
    let flow = Flow {
        waits: put_header(out, l.flow.waits),
        ..l.flow
    };
    Log { flow, ..l }
}

// Where the window goes on behind `count` of its bytes: no further than its end.
fn place_behind(w: Window, count: usize) -> usize
    ensures { result ≡ place_behind w count }
{
    let at = w.at.min(w.end);
    at + count.min(w.end - at)
}

// The log behind a turn that took `count` bytes and put output up to `place`.
fn advanced<R: Print + Eprint>(
    rt: &R,
    l: Log,
    count: usize,
    place: usize,
    goes: bool,
    out: &[u8],
) -> Log
    ensures { Moved l count place goes out.now result }
{
    let at = place_behind(l.flow.window, count);
    let flow = passed(rt, l.flow, at, place, out);
    Log {
        flow,
        left: less(l.left, count),
        goes: goes & flow.goes,
        ..l
    }
}

// The log with more input.
fn supplied<R: Input + Print + Eprint>(rt: &R, l: Log, buf: &mut [u8], out: &[u8]) -> Log
    ensures { Supplied l buf.old result buf.new }
{
    let flow = fed(rt, l.flow, buf, out);
    Log {
        flow,
        goes: flow.goes,
        ..l
    }
}

// The log behind a turn, by how it goes on.
fn behind<R: Input + Print + Eprint>(
    rt: &R,
    l: Log,
    next: Next,
    count: usize,
    place: usize,
    buf: &mut [u8],
    out: &[u8],
) -> Log
    ensures { Onward next l count place out.now buf.old result buf.new }
{
    match next {
        Next::Again => advanced(rt, l, count, place, true, out),
        Next::More => supplied(rt, l, buf, out),
        Next::Stop => advanced(rt, l, count, place, false, out),
    }
}

// One turn of the session, on the bytes of the log that stand in the window. Where there is room for a line, its text is printed whole.
fn run_turn<E: Engine>(
    l: Log,
    s: Session<E>,
    buf: &[u8],
    room: &mut [u8],
    out: &mut [u8],
) -> Turned<E>
    requires { Free longest_line out.old l.flow.waits }
    ensures value { result ≡ turned_of (turn_of E.ruled s (bytes_in l buf.now) (is_last l buf.now) room.old) out.old l.flow.waits }
    ensures room_after { room.new ≡ (turn_of E.ruled s (bytes_in l buf.now) (is_last l buf.now) room.old).room }
    ensures uncut { Uncut out.old l.flow.waits (turn_of E.ruled s (bytes_in l buf.now) (is_last l buf.now) room.old).text out.new }
{
    let p = part(l.flow.window, l.left, buf.len());
    let at = p.at;
    let end = p.end;
    turn(s, &buf[at..end], p.last, room, out, l.flow.waits)
}

// A log to its end, with the engine E. The log and its session are two variables: of a struct of both each turn would copy every field.
fn run_log<E: Engine, R: Input + Print + Eprint>(
    rt: &R,
    l: Log,
    buf: &mut [u8],
    out: &mut [u8],
) -> Log
    requires goes_value { l.goes ≡ true }
    requires free { Free spare out.old l.flow.waits }
    ensures { Free spare out.new result.flow.waits }
{
    let mut room = [0u8; 124];
    let mut log = started(l, out);
    let state = E::empty(l.clock);
    let mut s = Session { state, step: 1 };
    for _turn in 0..u64::MAX {
        if !log.goes {
            break;
        }
        let t = run_turn(log, s, buf, &mut room, out);
        let next = t.next;
        s = t.session;
        log = behind(rt, log, next, t.count, t.place, buf, out);
    }
    log
}

// A log to its end, with the second engine or the first. A word that the program is started with says which, so it is a value here.
fn run_with<R: Input + Print + Eprint>(
    rt: &R,
    l: Log,
    second: bool,
    buf: &mut [u8],
    out: &mut [u8],
) -> Log
    requires goes_value { l.goes ≡ true }
    requires free { Free spare out.old l.flow.waits }
    ensures { Free spare out.new result.flow.waits }
{
    if second {
        run_log::<Second, R>(rt, l, buf, out)
    } else {
        run_log::<Supervisor, R>(rt, l, buf, out)
    }
}

// Whether the only word behind the program's name is `second`, of so many words with the name.
fn is_second<R: Env>(rt: &R, count: usize) -> bool {
    let mut word = [0u8; 7];
    let n = words::arg(rt, 1, &mut word);
    (count == 2) & matches!(&word[..n], b"second")
}

// Tells which words there are.
fn usage<R: Eprint>(rt: &R) {
    let _ = eprintln!(rt; "usage: stepper or replay, with no word or the word second, < LOG");
}

// Whether the program's word chooses the second engine; nothing where it is another word, which is told.
fn chosen<R: Eprint + Env>(rt: &R) -> Option<bool> {
    let count = words::arg_count(rt, 3);
    let second = is_second(rt, count);
    if second | (count < 2) {
        return Some(second);
    }
    usage(rt);
    None
}

// The log that standard input is, from an empty supervisor with this clock, with the second engine or the first.
fn run_input_with<R: Input + Print + Eprint>(rt: &R, clock: u32, second: bool) {
    let mut buf = [0u8; 65536];
    let mut out = [0u8; 65536];
    let flow = begun();
    let l = Log {
        flow,
        clock,
        left: ENDLESS,
        goes: true,
    };
    let done = run_with(rt, l, second, &mut buf, &mut out);
    flushed(rt, &out, done.flow.waits);
}

// The same, with the engine that the program's word chooses.
pub fn run_input<R: Input + Print + Eprint + Env>(rt: &R, clock: u32) {
    if let Some(second) = chosen(rt) {
        run_input_with(rt, clock, second);
    }
}

// What is skipped of a log: the window on the input, the bytes that the log still has, and whether more of them may come.
#[derive(Clone, Copy)]
pub struct Rest {
    pub window: Window,
    pub left: u64,
    pub goes: bool,
}

// Behind what stands of a log in the window on a buffer of n bytes.
fn dropped(w: Window, left: u64, n: usize) -> Rest
    ensures { result ≡ dropped_of w left n }
{
    let p = part(w, left, n);
    Rest {
        window: Window { at: p.end, ..w },
        left: less(left, p.end - p.at),
        goes: !p.last,
    }
}

// The window behind the rest of a log.
fn skipped<R: Input + Eprint>(rt: &R, w: Window, left: u64, buf: &mut [u8]) -> Window
    ensures { Skipped w left buf.old result buf.new }
{
    let mut s = dropped(w, left, buf.len());
    for _ in 0..u64::MAX {
        if !s.goes {
            break;
        }
        let more = refilled(rt, s.window, buf);
        s = dropped(more, s.left, buf.len());
    }
    s.window
}

// The number in four bytes from a place on, 0 where there are fewer.
fn number_at(b: &[u8], at: usize) -> u32
    ensures { result ≡ number_at b.now at }
{
    if b.len() < 4 {
        return 0;
    }
    if b.len() - 4 < at {
        return 0;
    }
    word(b[at], b[at + 1], b[at + 2], b[at + 3])
}

// The log whose head, a clock and a number of bytes, four bytes each, stands next in the window. Without a whole head there is none.
fn next_in(f: Flow, buf: &[u8]) -> Log
    ensures { result ≡ head_of f buf.now }
{
    let w = f.window;
    let p = part(w, 8, buf.len());
    let at = p.at;
    let end = p.end;
    let head = &buf[at..end];
    let window = Window { at: end, ..w };
    Log {
        flow: Flow { window, ..f },
        clock: number_at(head, 0),
        left: number_at(head, 4) as u64,
        goes: f.goes & (end - at == 8),
    }
}

// The next log behind this window, with this much output waiting.
fn next_log<R: Input + Eprint>(rt: &R, w: Window, f: Flow, buf: &mut [u8]) -> Log
    ensures { Headed w f buf.old result buf.new }
{
    let window = headed(rt, w, buf);
    next_in(Flow { window, ..f }, buf)
}

// Runs a log, and gives the next one. The rest of a log that stopped is skipped.
#[tactic(auto, unfolding(crate::specs::Rests::head_of))]
fn run_next<R: Input + Print + Eprint>(
    rt: &R,
    l: Log,
    second: bool,
    buf: &mut [u8],
    out: &mut [u8],
) -> Log
    requires goes_value { l.goes ≡ true }
    requires free { Free spare out.old l.flow.waits }
    ensures { Free spare out.new result.flow.waits }
{
    let done = run_with(rt, l, second, buf, out);
    let window = skipped(rt, done.flow.window, done.left, buf);
    next_log(rt, window, done.flow, buf)
}

// All logs of standard input, each from an empty supervisor with its own clock, with the second engine or the first.
#[tactic(auto, unfolding(crate::specs::Rests::head_of))]
fn run_logs_with<R: Input + Print + Eprint>(rt: &R, second: bool) {
    let mut buf = [0u8; 65536];
    let mut out = [0u8; 65536];
    let f = begun();
    let mut l = next_log(rt, f.window, f, &mut buf);
    for _ in 0..u64::MAX {
        if !l.goes {
            break;
        }
        l = run_next(rt, l, second, &mut buf, &mut out);
    }
    flushed(rt, &out, l.flow.waits);
}

// The same, with the engine that the program's word chooses.
pub fn run_logs<R: Input + Print + Eprint + Env>(rt: &R) {
    if let Some(second) = chosen(rt) {
        run_logs_with(rt, second);
    }
}
