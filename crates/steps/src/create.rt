// CREATE.
ghost use Rattle.std.specs.Prelude.{◌≡◌};
ghost use Rattle.calls.specs.declared.Call.TheVariants.{Create};
ghost use Rattle.rules.specs.Step.{take_call};
ghost use Rattle.rules.specs.Whole.{view_core};
ghost use Rattle.steps.specs.Taken.{Stands, taken_of};

use super::answers::{Taken, answered};
use rules::{Core, Refusal, StepResult};
use table::place::in_range;
use table::tasks::{fresh_task, with_task};

// A new ready task.
pub fn create(s: Core, priority: u8, entries: u8) -> Result<Taken, Refusal>
    requires { Stands s }
    ensures { result ≡ taken_of (take_call (view_core s) (Create priority entries)) }
{
    if !in_range(priority, entries) {
        return Err(Refusal::BadField);
    }
    if s.created >= 31 {
        return Err(Refusal::Full);
    }
    let t = s.created + 1;
    let ready = s.ready;
    let ready_now = lines::joined(ready, t);
    let x = fresh_task(priority, entries);
    let mut n = with_task(s, t, x);
    n.created = t;
    n.ready = ready_now;
    Ok(answered(n, t, StepResult::Done as u8, 0, 0, 0))
}
