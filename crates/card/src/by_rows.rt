// The same over the second engine, whose state has bytes of its own: a core, and behind it a row of callers for each task.
// No generic functions for both engines: the contracts, which C is promised, stay one for each, and a trait with its two impls is longer than these bodies.
ghost use Rattle.std.specs.Prelude.{◌++◌, ◌≡◌, length, drop};
ghost use Rattle.lists.specs.Lists.{bit};
ghost use Rattle.rules.specs.Questions.{refusal_in, number_in, yes_in};
ghost use Rattle.rules.specs.Second.{start_second, sound_second, step_second, count_second, callable_second, running_second, priority_second};
ghost use Rattle.rules.specs.Step.{room_after};
ghost use Rattle.rules.specs.Whole.{answer_of};
ghost use Rattle.codec.specs.Rows.{second_size, second_in, stored_second};
ghost use Rattle.card.specs.Answers.{second_step, second_after, answer_bytes, if_room, one_after};

use super::{flag, put_answer, put_asked};
use calls::Call;
use calls::numbers::SHORT_ROOM;
use codec::rows::{SECOND_SIZE, second_in, second_store};
use rules::Answer;
use steps::answers::refused_answer;

// Makes a supervisor with no tasks.
pub fn second_empty(state: &mut [u8], clock: u32) -> u8
    ensures value { result ≡ if_room second_size state.old 1 0 }
    ensures state_after { state.new ≡ stored_second (start_second clock) state.old }
{
    if state.len() < SECOND_SIZE {
        return SHORT_ROOM;
    }
    let x = second::empty(clock);
    second_store(x, state);
    0
}

// Whether the state is sound.
pub fn second_sound(state: &[u8]) -> u8
    ensures { result ≡ bit (sound_second (second_in state.now)) }
{
    let x = second_in(state);
    flag(second::sound(x))
}

// One call on lent bytes.
fn take_call(state: &mut [u8], c: Call, room: &mut [u8]) -> Answer
    ensures value { result ≡ answer_of (step_second (second_in state.old) c (length room.old)) }
    ensures state_after { state.new ≡ second_after state.old (step_second (second_in state.old) c (length room.old)) }
    ensures room_after { room.new ≡ room_after room.old (step_second (second_in state.old) c (length room.old)).ended }
{
    let x = second_in(state);
    let k = second::step(x, c, room);
    let answer = k.answer;
    if answer.refusal == 0 {
        second_store(k.state, state);
        return answer;
    }
    answer
}

// The call of a record on lent bytes.
fn take_record(state: &mut [u8], record: &[u8], room: &mut [u8]) -> Answer
    ensures value { result ≡ answer_of (second_step state.old «record».now (length room.old)) }
    ensures state_after { state.new ≡ second_after state.old (second_step state.old «record».now (length room.old)) }
    ensures room_after { room.new ≡ room_after room.old (second_step state.old «record».now (length room.old)).ended }
{
    match calls::read_record(record) {
        Ok(read) => take_call(state, read.call, room),
        Err(error) => refused_answer(error.into(), 0),
    }
}

// One step: the call of a record. Its refusal is the answer's first number too; bytes behind the record are not looked at.
pub fn second_step(state: &mut [u8], record: &[u8], room: &mut [u8], answer: &mut [u8]) -> u8
    ensures value { result ≡ if_room 7 answer.old 1 (second_step state.old «record».now (length room.old)).refusal }
    ensures state_after { state.new ≡ if_room 7 answer.old state.old (second_after state.old (second_step state.old «record».now (length room.old))) }
    ensures room_after { room.new ≡ if_room 7 answer.old room.old (room_after room.old (second_step state.old «record».now (length room.old)).ended) }
    ensures answer_after { answer.new ≡ if_room 7 answer.old answer.old (answer_bytes (answer_of (second_step state.old «record».now (length room.old))) ++ drop 7 answer.old) }
{
    if answer.len() < 7 {
        return SHORT_ROOM;
    }
    let taken = take_record(state, record, room);
    put_answer(answer, taken);
    taken.refusal
}

// COUNT of a task and an entry.
pub fn second_count(state: &[u8], task: u8, entry: u8, answer: &mut [u8]) -> u8
    ensures value { result ≡ if_room 1 answer.old 1 (refusal_in (count_second (second_in state.now) task entry)) }
    ensures answer_after { answer.new ≡ one_after answer.old (number_in (count_second (second_in state.now) task entry)) }
{
    let x = second_in(state);
    put_asked(answer, second::count(x, task, entry).map(|n| n as u8))
}

// CALLABLE of a task: 1 for yes.
pub fn second_callable(state: &[u8], task: u8, answer: &mut [u8]) -> u8
    ensures value { result ≡ if_room 1 answer.old 1 (refusal_in (callable_second (second_in state.now) task)) }
    ensures answer_after { answer.new ≡ one_after answer.old (bit (yes_in (callable_second (second_in state.now) task))) }
{
    let x = second_in(state);
    put_asked(answer, second::callable(x, task).map(flag))
}

// The dispatched task, 0 if there is none.
pub fn second_running(state: &[u8], answer: &mut [u8]) -> u8
    ensures value { result ≡ if_room 1 answer.old 1 (refusal_in (running_second (second_in state.now))) }
    ensures answer_after { answer.new ≡ one_after answer.old (number_in (running_second (second_in state.now))) }
{
    let x = second_in(state);
    put_asked(answer, second::running(x))
}

// The priority of a task, worked out afresh; 0 for a number not created.
pub fn second_priority(state: &[u8], task: u8, answer: &mut [u8]) -> u8
    ensures value { result ≡ if_room 1 answer.old 1 (refusal_in (priority_second (second_in state.now) task)) }
    ensures answer_after { answer.new ≡ one_after answer.old (number_in (priority_second (second_in state.now) task)) }
{
    let x = second_in(state);
    put_asked(answer, second::priority(x, task))
}
