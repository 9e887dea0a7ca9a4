// One turn: the record at the start of the input is read, its call taken, and its line printed. Session, room and place are parameters of their own: a
// struct of them would be copied at each turn.
ghost use Rattle.std.specs.Prelude.{◌≡◌, ◌≤◌, length};
ghost use Rattle.calls.specs.Reading.{number_of};
ghost use Rattle.report.specs.Lines.{longest_line};
ghost use Rattle.text.specs.Text.{put_at};
ghost use Rattle.session.specs.Turn.{turn_of, turned_of, took, leaves};

use crate::engines::Engine;
use calls::{Call, ReadError, Record};
use report::put_line;

// A log on its way: the supervisor of an engine, and the number of the next line.
#[derive(Clone, Copy)]
pub struct Session<E> {
    pub state: E,
    pub step: u64,
}

// How it goes on: with another turn, with more bytes of input first, or not at all.
#[derive(Clone, Copy)]
pub enum Next {
    Again,
    More,
    Stop,
}

// What a turn gave: the session, the bytes of the input that it took, the place behind what it printed, and how it goes on.
#[derive(Clone, Copy)]
pub struct Turned<E> {
    pub session: Session<E>,
    pub count: usize,
    pub place: usize,
    pub next: Next,
}

// A call is taken, and its line printed.
fn taken<E: Engine>(
    s: Session<E>,
    call: Call,
    count: usize,
    room: &mut [u8],
    out: &mut [u8],
    at: usize,
) -> Turned<E>
    ensures value { result ≡ turned_of (took E.ruled s call count room.old) out.old at }
    ensures room_after { room.new ≡ (took E.ruled s call count room.old).room }
    ensures out_after { out.new ≡ put_at out.old at (took E.ruled s call count room.old).text }
    ensures room_len_bound { length (took E.ruled s call count room.old).text ≤ longest_line }
{
    let stepped = s.state.step(call, room);
    let answer = stepped.answer;
    let place = put_line(s.step, answer, room, out, at);
    let after = stepped.state;
    let session = Session {
        state: after,
        step: s.step.wrapping_add(1),
    };
    Turned {
        session,
        count,
        place,
        next: Next::Again,
    }
}

// No record: more bytes are asked for, the log is over, or a last line says what is wrong.
fn refused<E: Engine>(
    s: Session<E>,
    error: ReadError,
    many: usize,
    last: bool,
    room: &[u8],
    out: &mut [u8],
    at: usize,
) -> Turned<E>
    ensures value { result ≡ turned_of (leaves E.ruled s (number_of error) many last room.now) out.old at }
    ensures out_after { out.new ≡ put_at out.old at (leaves E.ruled s (number_of error) many last room.now).text }
    ensures room_len_bound { length (leaves E.ruled s (number_of error) many last room.now).text ≤ longest_line }
{
    if !last & (many < 10) {
        return Turned {
            session: s,
            count: 0,
            place: at.min(out.len()),
            next: Next::More,
        };
    }
    if error == ReadError::EndOfLog {
        return Turned {
            session: s,
            count: 0,
            place: at.min(out.len()),
            next: Next::Stop,
        };
    }
    let runs = s.state.running().unwrap_or(0);
    let answer = steps::answers::refused_answer(error.into(), runs);
    let place = put_line(s.step, answer, room, out, at);
    Turned {
        session: s,
        count: 0,
        place,
        next: Next::Stop,
    }
}

// One turn on the input, of which more bytes may come unless `last`. A bad record gets a line with refusal 11, and stops it.
pub fn turn<E: Engine>(
    s: Session<E>,
    input: &[u8],
    last: bool,
    room: &mut [u8],
    out: &mut [u8],
    at: usize,
) -> Turned<E>
    ensures value { result ≡ turned_of (turn_of E.ruled s input.now last room.old) out.old at }
    ensures room_after { room.new ≡ (turn_of E.ruled s input.now last room.old).room }
    ensures out_after { out.new ≡ put_at out.old at (turn_of E.ruled s input.now last room.old).text }
    ensures room_len_bound { length (turn_of E.ruled s input.now last room.old).text ≤ longest_line }
{
    let got = calls::read_record(input);
    let Ok(Record { call, count }) = got else {
        return refused(s, got.unwrap_err(), input.len(), last, room, out, at);
    };
    taken(s, call, count, room, out, at)
}
