// The calls, on the core of a state: what both engines share. That a core is the core of a sound state is said at each function (`Stands`), and is no
// invariant of the type: a damaged state is a value of it too. What a call needs to know of the callers, a line of those queued on the
// running task, is handed in; what becomes of the callers is told by the answer and by the list of ended waits (`change`).
#![tactic(auto)]

mod advance;
pub mod answers;
mod call;
mod callers;
pub mod change;
mod create;
mod delay;
mod end;
mod ended;
pub mod engine;
mod finish;
mod runner;
mod select;

ghost use Rattle.std.specs.Prelude.{◌≡◌, ◌≤◌, length};
ghost use Rattle.rules.specs.Step.{take_call, room_after};
ghost use Rattle.steps.specs.Taken.{SeesFor, seen, taken_of, ended_by};

use answers::Taken;
use calls::Call;
use rules::{Core, Refusal};

// The call, on the core of a sound state with room enough, where the line has those queued on the running task, if the call asks for them.
pub fn take_call(s: Core, mine: [u8; 31], c: Call, room: &mut [u8]) -> Result<Taken, Refusal>
    requires { SeesFor s mine c × (124 ≤ length room.old) }
    ensures value { result ≡ taken_of (take_call (seen s mine) c) }
    ensures room { room.new ≡ room_after room.old (ended_by (take_call (seen s mine) c)) }
{
    match c {
        Call::Create { priority, entries } => create::create(s, priority, entries),
        Call::Delay(d) => delay::delay(s, d),
        Call::Call {
            target,
            entry,
            mode,
        } => call::call(s, target, entry, mode, room),
        Call::Select { open, mode } => select::select(s, mine, open, mode),
        Call::End => end::end(s, room),
        Call::Finish => finish::finish(s, mine, room),
        Call::Tick => advance::tick(s, room),
        Call::Advance(n) => advance::advance(s, n, room),
    }
}
