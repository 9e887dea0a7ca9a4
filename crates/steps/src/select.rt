// SELECT.
ghost use Rattle.std.specs.Prelude.{◌≡◌, ◌≤◌, length};
ghost use Rattle.calls.specs.declared.Call.TheVariants.{Select};
ghost use Rattle.rules.specs.Step.{take_call, select_none};
ghost use Rattle.rules.specs.Whole.{view_core};
ghost use Rattle.steps.specs.Taken.{Stands, Sees, seen, taken_of, awaiting};

use super::answers::{Taken, answered};
use super::callers::lowest;
use super::runner::runner;
use calls::{SelectMode, ticks};
use rules::{Core, Offer, Place, Refusal, StepResult, Timer};
use table::moves::{met, moved};
use table::place::is_too_wide;
use table::tasks::task_of;

// Task t, which is running, waits to accept a caller of the open set o.
fn accepting(s: Core, t: u8, o: u8, w: Timer) -> Result<Taken, Refusal>
    requires { Stands s × (t ≤ length (view_core s).tasks) }
    ensures { result ≡ taken_of (awaiting (view_core s) t o w) }
{
    let n = moved(s, t, Place::Accepting(Offer { opens: o }), w);
    Ok(answered(n, t, StepResult::Waits as u8, 0, 0, 0))
}

// No open entry has a caller: the task waits, or not, as the mode says.
fn select_none(s: Core, t: u8, o: u8, m: SelectMode) -> Result<Taken, Refusal>
    requires { Stands s × (t ≤ length (view_core s).tasks) }
    ensures { result ≡ taken_of (select_none (view_core s) t o m) }
{
    match m {
        SelectMode::Plain => {
            if o == 0 {
                return Ok(answered(s, t, StepResult::ProgramError as u8, 0, 0, 0));
            }
            accepting(s, t, o, Timer::Off)
        }
        SelectMode::Delay(d) => {
            let k = ticks(d);
            if k == 0 {
                return Ok(answered(s, t, StepResult::DelayTaken as u8, 0, 0, 0));
            }
            let w = Timer::Due(s.clock.wrapping_add(k));
            accepting(s, t, o, w)
        }
        SelectMode::Else => Ok(answered(s, t, StepResult::ElseTaken as u8, 0, 0, 0)),
    }
}

// An open entry with a caller is taken, the lowest-numbered one, and its longest-waiting caller is held.
pub fn select(s: Core, mine: [u8; 31], o: u8, m: SelectMode) -> Result<Taken, Refusal>
    requires { Sees s mine }
    ensures { result ≡ taken_of (take_call (seen s mine) (Select o m)) }
{
    let t = runner(s)?;
    let x = task_of(s, t);
    if is_too_wide(o, x.entries) {
        return Err(Refusal::NoEntry);
    }
    let b = lowest(s, mine, t, o);
    if b.entry == 9 {
        return select_none(s, t, o, m);
    }
    let n = met(s, t, b.task, b.entry);
    Ok(answered(n, t, StepResult::Accepted as u8, b.entry, b.task, 0))
}
