// Runs operations on a storage area, a line of standard input for each, and prints what it answers and both tables.
//
//     f          make a fresh area
//     a N        request N units
//     r S        release the block that starts at S
//     b I S L    put S and L at place I of the table of blocks, to damage it
//     e I S L    the same in the table of free stretches
//     u M N      say that M and N places are used
//
// A number has digits alone, and at most 4294967295; behind the letter and between numbers is one space. A line that is no operation changes nothing
// and prints nothing: it is told on standard error, with its number.
//
// A line of the output has the refusal, the value and the places used in each table; then, behind `|`, place, start and length
// of each block, and behind another `|` those of each free stretch. Unused places are left out.
#![tactic(auto)]

mod operation; // operation.rt: what a line says
mod print; // print.rt: a line is put together

use operation::{Operation, read_operation};
use print::put_line;
use stream::errors::tell_line;
use stream::line::{Kind, Lines, Piece, behind, first, front};
use workspace::{Answer, Stretch, Tables, UNUSED, Used};

// The tables, and the lines on their way. The buffers stay apart from them: a struct of all would be copied at each turn.
#[derive(Clone, Copy)]
struct State {
    tables: Tables,
    lines: Lines,
}

// Two tables with no place used: every operation but a fresh area is refused on them.
fn start() -> State {
    let places = [UNUSED; 32];
    let used = Used { blocks: 0, free: 0 };
    let answer = Answer {
        refusal: 0,
        value: 0,
        used,
    };
    let tables = Tables {
        blocks: places,
        free: places,
        answer,
    };
    let lines = first();
    State { tables, lines }
}

// The tables with so many places used. Damage answers nothing: 0 and 0.
fn counted(t: Tables, used: Used) -> Tables {
    let mut r = t;
    r.answer = Answer {
        refusal: 0,
        value: 0,
        used,
    };
    r
}

// The places with x at i, if there is such a place.
fn damaged(a: [Stretch; 32], i: usize, x: Stretch) -> [Stretch; 32] {
    let mut r = a;
    if i < 32 {
        r[i] = x;
    }
    r
}

// The tables after an operation.
fn applied(t: Tables, o: Operation) -> Tables {
    let used = t.answer.used;
    match o {
        Operation::Fresh => workspace::owned::fresh(t),
        Operation::Request(size) => workspace::owned::request(t, size),
        Operation::Release(start) => workspace::owned::release(t, start),
        Operation::Block(i, x) => {
            let blocks = damaged(t.blocks, i, x);
            Tables {
                blocks,
                ..counted(t, used)
            }
        }
        Operation::Free(i, x) => {
            let free = damaged(t.free, i, x);
            Tables {
                free,
                ..counted(t, used)
            }
        }
        Operation::Used(used) => counted(t, used),
    }
}

// The tables unchanged, behind what stands at the front of the window.
fn unchanged<R: Input + Print + Eprint>(
    rt: &R,
    s: State,
    p: Piece,
    buf: &mut [u8],
    out: &[u8],
) -> State {
    let tables = s.tables;
    let lines = behind(rt, s.lines, p, s.lines.flow.waits, buf, out);
    State { tables, lines }
}

// An operation is carried out, and what it answers goes to the output.
fn carried<R: Input + Print + Eprint>(
    rt: &R,
    s: State,
    o: Operation,
    p: Piece,
    buf: &mut [u8],
    out: &mut [u8],
) -> State {
    let tables = applied(s.tables, o);
    let place = put_line(tables, out, s.lines.flow.waits);
    let lines = behind(rt, s.lines, p, place, buf, out);
    State { tables, lines }
}

// One turn, on what stands at the front of the window.
fn turn<R: Input + Print + Eprint>(rt: &R, s: State, buf: &mut [u8], out: &mut [u8]) -> State {
    let p = front(s.lines, buf);
    let kind = p.kind;
    let Kind::Line = kind else {
        return unchanged(rt, s, p, buf, out);
    };
    let from = p.from;
    let to = p.to;
    if let Some(o) = read_operation(&buf[from..to]) {
        return carried(rt, s, o, p, buf, out);
    }
    tell_line(
        rt,
        s.lines.number,
        b"f, a N, r S, b I S L, e I S L or u M N",
    );
    unchanged(rt, s, p, buf, out)
}

fn main(rt: HostRuntime) {
    let mut buf = [0u8; 65536];
    let mut out = [0u8; 65536];
    let mut s = start();
    for _ in 0..u64::MAX {
        if !s.lines.flow.goes {
            break;
        }
        s = turn(&rt, s, &mut buf, &mut out);
    }
}
