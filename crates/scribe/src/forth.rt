// Text to records, line by line.
use crate::errors;
use script::{Line, put_record, read_line};
use stream::line::{Kind, Lines, behind, first, front};

// The record of a line is put into out. Of a line that cannot be read the number is told, and nothing is put.
fn put_line<R: Eprint>(rt: &R, number: u64, line: &[u8], out: &mut [u8], at: usize) -> usize {
    let said = read_line(line);
    if let Line::Unread = said {
        errors::unread(rt, number, line);
    }
    put_record(said, out, at)
}

// One turn, on what stands at the front of the window.
fn turn<R: Input + Print + Eprint>(rt: &R, l: Lines, buf: &mut [u8], out: &mut [u8]) -> Lines {
    let p = front(l, buf);
    let Kind::Line = p.kind else {
        return behind(rt, l, p, l.flow.waits, buf, out);
    };
    let place = put_line(rt, l.number, &buf[p.from..p.to], out, l.flow.waits);
    behind(rt, l, p, place, buf, out)
}

// All lines of standard input.
pub fn run<R: Input + Print + Eprint>(rt: &R, buf: &mut [u8], out: &mut [u8]) {
    let mut l = first();
    for _ in 0..u64::MAX {
        if !l.flow.goes {
            break;
        }
        l = turn(rt, l, buf, out);
    }
}
