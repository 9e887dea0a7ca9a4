// What becomes of the callers: who is gone, and who comes, is read off what a call gave and off the lent room. No engine looks at the core for it.
ghost use Rattle.std.specs.Prelude.{◌≡◌, ◌++◌};
ghost use Rattle.calls.specs.Record.{byte};
ghost use Rattle.lists.specs.Marks.{no_marks, marked};
ghost use Rattle.rules.specs.Callers.{asks, accepted_in, is_call, comes_by};
ghost use Rattle.rules.specs.Runs.{target};
ghost use Rattle.steps.specs.Change.{one, task_at, partner_at, bytes_in, comes_of, joined_of, line_by};

use calls::Call;
use rules::StepResult;

// Where the task and the partner stand in the four bytes of an item.
const TASK_AT: u8 = 0;

const PARTNER_AT: u8 = 3;

// The byte at an index, 0 behind the last.
fn byte_at(room: &[u8], at: usize) -> u8
    ensures { result ≡ byte room.now at }
{
    room.get(at).copied().unwrap_or(0)
}

// The partner of one that was accepted, marked.
fn accepted_mark(res: u8, partner: u8) -> [u8; 32]
    ensures { result ≡ marked one (accepted_in res partner) no_marks }
{
    let mut marks = [0u8; 32];
    if res == u8::from(StepResult::Accepted) {
        lines::mark(&mut marks, partner, 1);
    }
    marks
}

// The marks, and with them a 1 for the byte at `field` of each of the first n items of the room.
// A count of items and no chunks of the room: `bytes_in` has 0 for a byte behind a room that is too short.
fn marks_in(room: &[u8], n: u8, field: u8, first: [u8; 32]) -> [u8; 32]
    ensures { result ≡ marked one (bytes_in field n room.now) first }
{
    let mut marks = first;
    for i in 0..n {
        let at = usize::from(i) * 4 + usize::from(field);
        lines::mark(&mut marks, byte_at(room, at), 1);
    }
    marks
}

// Those who are in no queue any more, marked: the partner of one that was accepted, and the tasks of the first n items of the room.
pub fn gone_marks(room: &[u8], n: u8, res: u8, partner: u8) -> [u8; 32]
    ensures { result ≡ marked one (accepted_in res partner ++ bytes_in task_at n room.now) no_marks }
{
    let accepted = accepted_mark(res, partner);
    marks_in(room, n, TASK_AT, accepted)
}

// Beside `gone_marks`, with another task and another field; what both do is `marks_in`.
// Those whose queues they have left, marked: task t if it accepted one, and the partners of the first n items of the room.
pub fn left_marks(room: &[u8], n: u8, res: u8, t: u8) -> [u8; 32]
    ensures { result ≡ marked one (accepted_in res t ++ bytes_in partner_at n room.now) no_marks }
{
    let accepted = accepted_mark(res, t);
    marks_in(room, n, PARTNER_AT, accepted)
}

// Whether those queued on the running task are looked at.
pub fn looks(c: Call) -> bool
    ensures { result ≡ asks c }
{
    matches!(c, Call::Select { .. } | Call::Finish)
}

// Whether it is a CALL.
fn is_call(c: Call) -> bool
    ensures { result ≡ is_call c }
{
    matches!(c, Call::Call { .. })
}

// Whether the task of a call that was taken waits in a queue now: a CALL that waits, and has woken nobody.
fn is_queueing(c: Call, res: u8, ended: u8) -> bool
    ensures { result ≡ comes_by c res ended }
{
    is_call(c) & ((res == u8::from(StepResult::Waits)) & (ended == 0))
}

// The same of any call: a refused one answers no result and no list too.
pub fn comes(c: Call, refusal: u8, res: u8, ended: u8) -> bool
    ensures { result ≡ comes_of c refusal res ended }
{
    (refusal == 0) & is_queueing(c, res, ended)
}

// The task that a call waits for, 0 if it is no CALL.
fn target_of(c: Call) -> u8
    ensures { result ≡ target c }
{
    match c {
        Call::Call { target, .. } => target,
        _ => 0,
    }
}

// The task whose queue the task of the call comes into, 0 where it comes into none.
pub fn joined_queue(c: Call, refusal: u8, res: u8, ended: u8) -> u8
    ensures { result ≡ joined_of c refusal res ended }
{
    if comes(c, refusal, res, ended) {
        target_of(c)
    } else {
        0 // it comes into none
    }
}

// A line of callers after a step: those without a mark, and t behind them if it comes.
pub fn next_line(l: [u8; 31], marks: [u8; 32], joins: bool, t: u8) -> [u8; 31]
    ensures { result ≡ line_by marks joins t l }
{
    let kept = lines::picked(l, marks, 0);
    if joins {
        return lines::joined(kept, t);
    }
    kept
}
