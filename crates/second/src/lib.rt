// The second engine: all calls to a task in one queue, whatever the entry. The calls themselves are those of the first (`steps`). Its functions stay
// beside those of `supervisor`, as is said there.
#![tactic(auto)]

mod rows;

ghost use Rattle.std.specs.Prelude.{length, ◌≡◌};
ghost use Rattle.rules.specs.Second.{start_second, sound_second, step_second, count_second, callable_second, running_second, priority_second};
ghost use Rattle.rules.specs.Step.{room_after};
ghost use Rattle.rules.specs.Whole.{stepped_of};

use calls::Call;
use rows::{next_rows, row_looked_at, row_of};
use rules::{BadState, Refusal, Row, Second, Stepped};
use soundness::{is_sound_second, rows_sound};
use steps::answers::{answer_by, is_short, refused_answer, refused_by};
use steps::change::{gone_marks, joined_queue, left_marks};
use steps::engine::{empty_core, is_callable, queue_length};
use steps::take_call;
use table::tree::highest_of;

// One call. A refused one leaves the state and the room as they are; the items of ended waits are written one behind the other.
pub fn step(x: Second, c: Call, room: &mut [u8]) -> Stepped<Second>
    ensures value { result ≡ stepped_of (step_second x c (length room.old)) }
    ensures room { room.new ≡ room_after room.old (step_second x c (length room.old)).ended }
{
    if is_short(room.len()) {
        let answer = refused_answer(u8::from(Refusal::ShortRoom), 0);
        return Stepped { state: x, answer };
    }
    let rows = x.rows;
    if !rows_sound(x.core, rows) {
        let answer = refused_answer(u8::from(Refusal::BadState), 0);
        return Stepped { state: x, answer };
    }
    let mine = row_looked_at(x.core, rows, c);
    let k = match take_call(x.core, mine, c, room) {
        Ok(k) => k,
        Err(why) => {
            let next = table::dispatch::running(x.core);
            let answer = answer_by(refused_by(x.core, u8::from(why)), next);
            return Stepped { state: x, answer };
        }
    };
    let gone = gone_marks(room, k.ended, k.result, k.partner);
    let left = left_marks(room, k.ended, k.result, k.task);
    let joined = joined_queue(c, k.refusal, k.result, k.ended);
    let rows_now = next_rows(rows, left, gone, joined, k.task);
    let after = k.state;
    let next = table::dispatch::running(after);
    let answer = answer_by(k, next);
    Stepped {
        state: Second {
            core: after,
            rows: rows_now,
        },
        answer,
    }
}

// A supervisor with no tasks.
pub fn empty(clock: u32) -> Second
    ensures { result ≡ start_second clock }
{
    let core = empty_core(clock);
    Second {
        core,
        rows: [Row { line: [0u8; 31] }; 31],
    }
}

// Whether the state is sound.
pub fn sound(x: Second) -> bool
    ensures { result ≡ sound_second x }
{
    is_sound_second(x)
}

// Who runs: the head of the highest ready queue that is not empty, 0 where nobody is ready.
pub fn running(x: Second) -> Result<u8, BadState>
    ensures { result ≡ running_second x }
{
    sound(x)
        .then(|| table::dispatch::running(x.core))
        .ok_or(BadState)
}

// The priority of task t, worked out afresh: the highest created one among itself and everyone below it in the tree of held callers.
pub fn priority(x: Second, t: u8) -> Result<u8, BadState>
    ensures { result ≡ priority_second x t }
{
    sound(x).then(|| highest_of(x.core, t)).ok_or(BadState)
}

// COUNT: how many are queued on entry e of task t.
pub fn count(x: Second, t: u8, e: u8) -> Result<usize, BadState>
    ensures { result ≡ count_second x t e }
{
    sound(x)
        .then(|| queue_length(x.core, row_of(x.rows, t), t, e))
        .ok_or(BadState)
}

// CALLABLE: whether task t was created and has not completed.
pub fn callable(x: Second, t: u8) -> Result<bool, BadState>
    ensures { result ≡ callable_second x t }
{
    sound(x).then(|| is_callable(x.core, t)).ok_or(BadState)
}
