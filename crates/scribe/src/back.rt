// Records to text, a line for each.
use calls::{Call, Record};
use script::put_call;
use stream::errors::tell_record;
use stream::flow::{Flow, begun, done, fed, passed};
use text::put_byte;

// The flow of input and output, and the number of the record that comes next.
#[derive(Clone, Copy)]
struct Records {
    flow: Flow,
    number: u64,
}

// The text of a call and a line end.
fn put_text(call: Call, out: &mut [u8], at: usize) -> usize {
    let behind = put_call(call, out, at);
    put_byte(b'\n', out, behind)
}

// Behind a record that ends at `at`: the text of its call is put.
fn taken<R: Print + Eprint>(rt: &R, r: Records, call: Call, at: usize, out: &mut [u8]) -> Records {
    let place = put_text(call, out, r.flow.waits);
    let flow = passed(rt, r.flow, at, place, out);
    Records {
        flow,
        number: r.number.wrapping_add(1),
    }
}

// Behind the last record. The text of those before bytes that are none is written before these are told.
fn over<R: Print + Eprint>(rt: &R, r: Records, bad: bool, out: &[u8]) -> Records {
    let flow = done(rt, r.flow, out);
    if bad {
        tell_record(rt, r.number);
    }
    Records { flow, ..r }
}

// Where n bytes are no record: it is over, unless they are fewer than the longest has and more may come.
fn without<R: Input + Print + Eprint>(
    rt: &R,
    r: Records,
    n: usize,
    buf: &mut [u8],
    out: &[u8],
) -> Records {
    if r.flow.window.last | (10 <= n) {
        return over(rt, r, 0 < n, out);
    }
    let flow = fed(rt, r.flow, buf, out);
    Records { flow, ..r }
}

// One turn, on what stands in the window.
fn turn<R: Input + Print + Eprint>(rt: &R, r: Records, buf: &mut [u8], out: &mut [u8]) -> Records {
    let shown = r.flow.window.within(buf.len());
    let unread = &buf[shown.at..shown.end];
    let got = calls::read_record(unread);
    let Ok(Record { call, count }) = got else {
        return without(rt, r, shown.end - shown.at, buf, out);
    };
    taken(rt, r, call, shown.at.wrapping_add(count), out)
}

// All records of standard input.
pub fn run<R: Input + Print + Eprint>(rt: &R, buf: &mut [u8], out: &mut [u8]) {
    let mut r = Records {
        flow: begun(),
        number: 1,
    };
    for _ in 0..u64::MAX {
        if !r.flow.goes {
            break;
        }
        r = turn(rt, r, buf, out);
    }
}
