// FINISH.
ghost use Rattle.std.specs.Prelude.{◌≡◌, ◌*◌, ◌≤◌, length};
ghost use Rattle.calls.specs.declared.Call.TheVariants.{Finish};
ghost use Rattle.lists.specs.Line.{line};
ghost use Rattle.rules.specs.Step.{take_call, room_after};
ghost use Rattle.rules.specs.Whole.{view_core};
ghost use Rattle.steps.specs.Taken.{Stands, Sees, seen, taken_of, ended_by, EachOnce, completing};

use super::answers::{Taken, answered};
use super::callers::queued_on;
use super::ended::wake_all;
use super::runner::runner;
use rules::{Core, Place, Refusal, StepResult, Timer};
use table::moves::moved;
use table::queues::{Test, picked};

// Task t completes, and all of a line become ready because it does.
fn completed(s: Core, t: u8, l: [u8; 31], room: &mut [u8]) -> Result<Taken, Refusal>
    requires { Stands s × (length (line l) * 4 ≤ length room.old) × EachOnce (view_core s) (line l) × (t ≤ length (view_core s).tasks) }
    ensures value { result ≡ taken_of (completing (view_core s) t (line l)) }
    ensures room { room.new ≡ room_after room.old (ended_by (completing (view_core s) t (line l))) }
{
    let w = wake_all(s, l, true, room);
    let m = moved(w.state, t, Place::Completed, Timer::Off);
    Ok(answered(m, t, StepResult::Done as u8, 0, 0, w.count))
}

// The running task completes, and all callers queued on it become ready.
pub fn finish(s: Core, mine: [u8; 31], room: &mut [u8]) -> Result<Taken, Refusal>
    requires { Sees s mine × (124 ≤ length room.old) }
    ensures value { result ≡ taken_of (take_call (seen s mine) Finish) }
    ensures room { room.new ≡ room_after room.old (ended_by (take_call (seen s mine) Finish)) }
{
    let t = runner(s)?;
    let held = s.held;
    // nobody is held, on any task, and nobody is queued: nobody need be looked for
    if (lines::first_of(held) == 0) & (lines::first_of(mine) == 0) {
        let m = moved(s, t, Place::Completed, Timer::Off);
        return Ok(answered(m, t, StepResult::Done as u8, 0, 0, 0));
    }
    let h = picked(s, held, Test::HeldBy { holder: t });
    let k = lines::len(h);
    if k > 0 {
        return Err(Refusal::StillServing);
    }
    let l = queued_on(s, mine, t);
    completed(s, t, l, room)
}
