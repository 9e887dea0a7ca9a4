// END.
ghost use Rattle.std.specs.Prelude.{◌≡◌, ◌≤◌, length};
ghost use Rattle.calls.specs.declared.Call.TheVariants.{End};
ghost use Rattle.rules.specs.Step.{take_call, room_after};
ghost use Rattle.rules.specs.Whole.{view_core};
ghost use Rattle.steps.specs.Taken.{Stands, taken_of, ended_by};

use super::answers::{Taken, answered};
use super::ended::put;
use super::runner::runner;
use rules::{Core, Item, Refusal, StepResult};
use table::moves::parted;
use table::place::entry_of;
use table::queues::{Test, picked};
use table::tasks::task_of;

// The caller held last becomes ready.
pub fn end(s: Core, room: &mut [u8]) -> Result<Taken, Refusal>
    requires { Stands s × (124 ≤ length room.old) }
    ensures value { result ≡ taken_of (take_call (view_core s) End) }
    ensures room { room.new ≡ room_after room.old (ended_by (take_call (view_core s) End)) }
{
    let t = runner(s)?;
    let held = s.held;
    let l = picked(s, held, Test::HeldBy { holder: t });
    let k = lines::last_of(l);
    if k == 0 {
        return Err(Refusal::NotServing);
    }
    let x = task_of(s, k);
    let p = x.place;
    put(
        room,
        Item {
            task: k,
            result: StepResult::Served.into(),
            entry: entry_of(p),
            partner: t,
        },
    );
    let n = parted(s, t, k);
    Ok(answered(n, t, StepResult::Done as u8, 0, 0, 1))
}
