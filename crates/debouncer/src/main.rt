// Reads 48 bytes of settings from standard input, then the raw bits, one byte a tick, and prints a line for each tick: its number and the
// reports of contacts 1 to 8. Settings that are refused get one line, with the refusal.
#![tactic(auto)]

use debounce::{Card, Made, Ticked};
use stream::flow::{Flow, begun, done, fed, passed};
use text::{put_byte, put_number};

// The flow of input and output, the card, and the number of the next tick; 0 before the settings are read.
#[derive(Clone, Copy)]
struct State {
    flow: Flow,
    card: Card,
    tick: u64,
}

// A space and the report of each contact, the lowest bit first: the contact's number is the place of its bit.
fn put_reports(bits: u8, out: &mut [u8], at: usize) -> usize {
    let mut place = at;
    for contact in 0..8u32 {
        place = put_byte(b' ', out, place);
        place = put_number(u64::from(bits >> contact & 1), out, place);
    }
    place
}

// The line of a tick.
fn put_line(tick: u64, bits: u8, out: &mut [u8], at: usize) -> usize {
    let number = put_number(tick, out, at);
    let reports = put_reports(bits, out, number);
    put_byte(b'\n', out, reports)
}

// The settings are refused: the line that says so, and no more.
fn refused<R: Print + Eprint>(rt: &R, s: State, refusal: u8, out: &mut [u8]) -> State {
    let place = put_number(u64::from(refusal), out, s.flow.waits);
    let end = put_byte(b'\n', out, place);
    let flow = passed(rt, s.flow, s.flow.window.end, end, out);
    State {
        flow: done(rt, flow, out),
        ..s
    }
}

// Behind the settings, which end at `at`.
fn made<R: Print + Eprint>(rt: &R, s: State, m: Made, at: usize, out: &mut [u8]) -> State {
    if m.refusal != 0 {
        return refused(rt, s, m.refusal, out);
    }
    State {
        flow: passed(rt, s.flow, at, s.flow.waits, out),
        card: m.card,
        tick: 1,
    }
}

// Behind a tick, whose byte ends at `at`.
fn ticked<R: Print + Eprint>(rt: &R, s: State, k: Ticked, at: usize, out: &mut [u8]) -> State {
    let place = put_line(s.tick, k.reported, out, s.flow.waits);
    State {
        flow: passed(rt, s.flow, at, place, out),
        card: k.card,
        tick: s.tick.wrapping_add(1),
    }
}

// More bytes are read.
fn supplied<R: Input + Print + Eprint>(rt: &R, s: State, buf: &mut [u8], out: &[u8]) -> State {
    State {
        flow: fed(rt, s.flow, buf, out),
        ..s
    }
}

// The input is over.
fn over<R: Print + Eprint>(rt: &R, s: State, out: &[u8]) -> State {
    State {
        flow: done(rt, s.flow, out),
        ..s
    }
}

// The settings, as soon as they are there.
fn head<R: Input + Print + Eprint>(rt: &R, s: State, buf: &mut [u8], out: &mut [u8]) -> State {
    let shown = s.flow.window.within(buf.len());
    let n = (shown.end - shown.at).min(48);
    if !shown.last & (n < 48) {
        return supplied(rt, s, buf, out);
    }
    let end = shown.at + n;
    let m = debounce::fresh(&buf[shown.at..end]);
    made(rt, s, m, end, out)
}

// One turn, on what stands in the window.
fn turn<R: Input + Print + Eprint>(rt: &R, s: State, buf: &mut [u8], out: &mut [u8]) -> State {
    if s.tick == 0 {
        return head(rt, s, buf, out);
    }
    let shown = s.flow.window.within(buf.len());
    if shown.at < shown.end {
        let k = debounce::tick(s.card, buf[shown.at]);
        return ticked(rt, s, k, shown.at + 1, out);
    }
    if shown.last {
        return over(rt, s, out);
    }
    supplied(rt, s, buf, out)
}

// All of standard input.
fn run<R: Input + Print + Eprint>(rt: &R, buf: &mut [u8], out: &mut [u8]) {
    let mut s = State {
        flow: begun(),
        card: debounce::fresh(&[]).card,
        tick: 0,
    };
    for _ in 0..u64::MAX {
        if !s.flow.goes {
            break;
        }
        s = turn(rt, s, buf, out);
    }
}

fn main(rt: HostRuntime) {
    let mut buf = [0u8; 65536];
    let mut out = [0u8; 65536];
    run(&rt, &mut buf, &mut out);
}
