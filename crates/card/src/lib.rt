// A supervisor whose state lies in lent bytes, for programs in C and Ada: the crate card_c passes these functions on to them. Each function
// takes every input.
#![tactic(auto)]

pub mod by_rows;
pub mod contacts;

ghost use Rattle.std.specs.Prelude.{◌≤◌, ◌++◌, ◌≡◌, length, drop};
ghost use Rattle.lists.specs.Lists.{bit};
ghost use Rattle.rules.specs.Questions.{refusal_in, number_in, yes_in, count_whole, callable_whole, running_whole, priority_whole};
ghost use Rattle.rules.specs.State.{empty};
ghost use Rattle.rules.specs.Step.{room_after};
ghost use Rattle.rules.specs.Whole.{pack, sound_whole, step_whole, answer_of};
ghost use Rattle.card.specs.Answers.{card_step, state_after, answer_bytes, if_room, one_after};
ghost use Rattle.codec.specs.Layout.{state_size, state_in, stored};

use calls::Call;
use calls::numbers::SHORT_ROOM;
use codec::{STATE_SIZE, put_at, state_in, store};
use rules::{Answer, BadState};
use steps::answers::refused_answer;

// 1 for yes, 0 for no.
fn flag(yes: bool) -> u8
    ensures { result ≡ bit yes }
{
    u8::from(yes)
}

// Makes a supervisor with no tasks.
pub fn card_empty(state: &mut [u8], clock: u32) -> u8
    ensures value { result ≡ if_room state_size state.old 1 0 }
    ensures state_after { state.new ≡ stored (pack (empty clock)) state.old }
{
    if state.len() < STATE_SIZE {
        return SHORT_ROOM;
    }
    let s = supervisor::empty(clock);
    store(s, state);
    0
}

// Whether the state is sound.
pub fn card_sound(state: &[u8]) -> u8
    ensures { result ≡ bit (sound_whole (state_in state.now)) }
{
    let s = state_in(state);
    flag(supervisor::sound(s))
}

// One call on lent bytes.
fn take_call(state: &mut [u8], c: Call, room: &mut [u8]) -> Answer
    ensures value { result ≡ answer_of (step_whole (state_in state.old) c (length room.old)) }
    ensures state_after { state.new ≡ state_after state.old (step_whole (state_in state.old) c (length room.old)) }
    ensures room_after { room.new ≡ room_after room.old (step_whole (state_in state.old) c (length room.old)).ended }
{
    let s = state_in(state);
    let k = supervisor::step(s, c, room);
    let answer = k.answer;
    if answer.refusal == 0 {
        store(k.state, state);
        return answer;
    }
    answer
}

// The call of a record on lent bytes.
fn take_record(state: &mut [u8], record: &[u8], room: &mut [u8]) -> Answer
    ensures value { result ≡ answer_of (card_step state.old «record».now (length room.old)) }
    ensures state_after { state.new ≡ state_after state.old (card_step state.old «record».now (length room.old)) }
    ensures room_after { room.new ≡ room_after room.old (card_step state.old «record».now (length room.old)).ended }
{
    match calls::read_record(record) {
        Ok(read) => take_call(state, read.call, room),
        Err(error) => refused_answer(error.into(), 0),
    }
}

// Puts the seven numbers of an answer at the start of lent bytes.
fn put_answer(answer: &mut [u8], a: Answer)
    requires { 7 ≤ length answer.old }
    ensures { answer.new ≡ answer_bytes a ++ drop 7 answer.old }
{
    put_at(
        answer,
        0,
        &[
            a.refusal, a.result, a.task, a.entry, a.partner, a.ended, a.next,
        ],
    );
}

// One step: the call of a record. Its refusal is the answer's first number too; bytes behind the record are not looked at.
pub fn card_step(state: &mut [u8], record: &[u8], room: &mut [u8], answer: &mut [u8]) -> u8
    ensures value { result ≡ if_room 7 answer.old 1 (card_step state.old «record».now (length room.old)).refusal }
    ensures state_after { state.new ≡ if_room 7 answer.old state.old (state_after state.old (card_step state.old «record».now (length room.old))) }
    ensures room_after { room.new ≡ if_room 7 answer.old room.old (room_after room.old (card_step state.old «record».now (length room.old)).ended) }
    ensures answer_after { answer.new ≡ if_room 7 answer.old answer.old (answer_bytes (answer_of (card_step state.old «record».now (length room.old))) ++ drop 7 answer.old) }
{
    if answer.len() < 7 {
        return SHORT_ROOM;
    }
    let taken = take_record(state, record, room);
    put_answer(answer, taken);
    taken.refusal
}

// The byte of an answer, and what is returned beside it.
fn put_one(answer: &mut [u8], refusal: u8, value: u8) -> u8
    ensures value { result ≡ if_room 1 answer.old 1 refusal }
    ensures answer_after { answer.new ≡ one_after answer.old value }
{
    if answer.len() < 1 {
        return SHORT_ROOM;
    }
    answer[0] = value;
    refusal
}

// The answer of a question: its byte, 0 with a refusal, and the number of the refusal.
fn put_asked(answer: &mut [u8], asked: Result<u8, BadState>) -> u8
    ensures value { result ≡ if_room 1 answer.old 1 (refusal_in asked) }
    ensures answer_after { answer.new ≡ one_after answer.old (number_in asked) }
{
    match asked {
        Ok(value) => put_one(answer, 0, value),
        Err(refusal) => put_one(answer, u8::from(refusal), 0),
    }
}

// COUNT of a task and an entry.
pub fn card_count(state: &[u8], task: u8, entry: u8, answer: &mut [u8]) -> u8
    ensures value { result ≡ if_room 1 answer.old 1 (refusal_in (count_whole (state_in state.now) task entry)) }
    ensures answer_after { answer.new ≡ one_after answer.old (number_in (count_whole (state_in state.now) task entry)) }
{
    let s = state_in(state);
    put_asked(answer, supervisor::count(s, task, entry).map(|n| n as u8))
}

// CALLABLE of a task: 1 for yes.
pub fn card_callable(state: &[u8], task: u8, answer: &mut [u8]) -> u8
    ensures value { result ≡ if_room 1 answer.old 1 (refusal_in (callable_whole (state_in state.now) task)) }
    ensures answer_after { answer.new ≡ one_after answer.old (bit (yes_in (callable_whole (state_in state.now) task))) }
{
    let s = state_in(state);
    put_asked(answer, supervisor::callable(s, task).map(flag))
}

// The dispatched task, 0 if there is none.
pub fn card_running(state: &[u8], answer: &mut [u8]) -> u8
    ensures value { result ≡ if_room 1 answer.old 1 (refusal_in (running_whole (state_in state.now))) }
    ensures answer_after { answer.new ≡ one_after answer.old (number_in (running_whole (state_in state.now))) }
{
    let s = state_in(state);
    put_asked(answer, supervisor::running(s))
}

// The priority of a task, worked out afresh; 0 for a number not created.
pub fn card_priority(state: &[u8], task: u8, answer: &mut [u8]) -> u8
    ensures value { result ≡ if_room 1 answer.old 1 (refusal_in (priority_whole (state_in state.now) task)) }
    ensures answer_after { answer.new ≡ one_after answer.old (number_in (priority_whole (state_in state.now) task)) }
{
    let s = state_in(state);
    put_asked(answer, supervisor::priority(s, task))
}
