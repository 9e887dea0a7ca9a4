// The first engine: an empty supervisor, its step, its questions. All callers stand in one line.
// The second engine (`second`) has functions of the same names. They stay two sets, since the theorems in `statements` speak of each; what both do
// alike stands in `steps` and `soundness`, and who takes either engine is written over the trait `Engine` (session).
#![tactic(auto)]

ghost use Rattle.std.specs.Prelude.{length, ◌≡◌};
ghost use Rattle.rules.specs.Questions.{count_whole, callable_whole, running_whole, priority_whole};
ghost use Rattle.rules.specs.Step.{room_after};
ghost use Rattle.rules.specs.State as state;
ghost use Rattle.rules.specs.Whole.{stepped_of, pack, sound_whole, step_whole};

use calls::Call;
use rules::{BadState, Refusal, Stepped, Supervisor};
use soundness::{is_sound, parts_sound};
use steps::answers::{answer_by, is_short, refused_answer, refused_by};
use steps::change::{comes, gone_marks, next_line};
use steps::engine::{empty_core, is_callable, queue_length};
use steps::take_call;
use table::tree::highest_of;

// One call. A refused one leaves the state and the room as they are; the items of ended waits are written one behind the other.
pub fn step(s: Supervisor, c: Call, room: &mut [u8]) -> Stepped<Supervisor>
    ensures value { result ≡ stepped_of (step_whole s c (length room.old)) }
    ensures room { room.new ≡ room_after room.old (step_whole s c (length room.old)).ended }
{
    if is_short(room.len()) {
        let answer = refused_answer(u8::from(Refusal::ShortRoom), 0);
        return Stepped { state: s, answer };
    }
    let callers = s.callers;
    if !parts_sound(s.core, callers) {
        let answer = refused_answer(u8::from(Refusal::BadState), 0);
        return Stepped { state: s, answer };
    }
    let k = match take_call(s.core, callers, c, room) {
        Ok(k) => k,
        Err(why) => {
            let next = table::dispatch::running(s.core);
            let answer = answer_by(refused_by(s.core, u8::from(why)), next);
            return Stepped { state: s, answer };
        }
    };
    let gone = gone_marks(room, k.ended, k.result, k.partner);
    let joins = comes(c, k.refusal, k.result, k.ended);
    let callers_now = next_line(callers, gone, joins, k.task);
    let after = k.state;
    let next = table::dispatch::running(after);
    let answer = answer_by(k, next);
    Stepped {
        state: Supervisor {
            core: after,
            callers: callers_now,
        },
        answer,
    }
}

// A supervisor with no tasks.
pub fn empty(clock: u32) -> Supervisor
    ensures { result ≡ pack (state.empty clock) }
{
    let core = empty_core(clock);
    Supervisor {
        core,
        callers: [0u8; 31],
    }
}

// Whether the state is sound.
pub fn sound(s: Supervisor) -> bool
    ensures { result ≡ sound_whole s }
{
    is_sound(s)
}

// Who runs: the head of the highest ready queue that is not empty, 0 where nobody is ready.
pub fn running(s: Supervisor) -> Result<u8, BadState>
    ensures { result ≡ running_whole s }
{
    sound(s)
        .then(|| table::dispatch::running(s.core))
        .ok_or(BadState)
}

// COUNT: how many are queued on entry e of task t.
pub fn count(s: Supervisor, t: u8, e: u8) -> Result<usize, BadState>
    ensures { result ≡ count_whole s t e }
{
    sound(s)
        .then(|| queue_length(s.core, s.callers, t, e))
        .ok_or(BadState)
}

// CALLABLE: whether task t was created and has not completed.
pub fn callable(s: Supervisor, t: u8) -> Result<bool, BadState>
    ensures { result ≡ callable_whole s t }
{
    sound(s).then(|| is_callable(s.core, t)).ok_or(BadState)
}

// The priority of task t, worked out afresh: the highest created one among itself and everyone below it in the tree of held callers.
pub fn priority(s: Supervisor, t: u8) -> Result<u8, BadState>
    ensures { result ≡ priority_whole s t }
{
    sound(s).then(|| highest_of(s.core, t)).ok_or(BadState)
}
