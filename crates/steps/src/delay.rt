// DELAY.
ghost use Rattle.std.specs.Prelude.{◌≡◌};
ghost use Rattle.calls.specs.declared.Call.TheVariants.{Delay};
ghost use Rattle.rules.specs.Step.{take_call};
ghost use Rattle.rules.specs.Whole.{view_core};
ghost use Rattle.steps.specs.Taken.{Stands, taken_of};

use super::answers::{Taken, answered};
use super::runner::runner;
use calls::ticks;
use rules::{Core, Place, Refusal, StepResult, Timer};
use table::moves::moved;

// Above 0, the running task waits until the d-th tick. Otherwise it moves to the tail of its level at once.
pub fn delay(s: Core, d: i32) -> Result<Taken, Refusal>
    requires { Stands s }
    ensures { result ≡ taken_of (take_call (view_core s) (Delay d)) }
{
    let t = runner(s)?;
    let n = ticks(d);
    if n == 0 {
        let left = moved(s, t, Place::Ready, Timer::Off);
        return Ok(answered(left, t, StepResult::Elapsed as u8, 0, 0, 0));
    }
    let w = Timer::Due(s.clock.wrapping_add(n));
    let left = moved(s, t, Place::Delayed, w);
    Ok(answered(left, t, StepResult::Waits as u8, 0, 0, 0))
}
