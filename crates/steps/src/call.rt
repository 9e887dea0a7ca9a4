// CALL.
ghost use Rattle.std.specs.Prelude.{◌≡◌, ◌≤◌, length};
ghost use Rattle.calls.specs.declared.Call.TheVariants.{Call};
ghost use Rattle.rules.specs.Step.{take_call, room_after, enqueue, call_busy};
ghost use Rattle.rules.specs.Whole.{view_core};
ghost use Rattle.steps.specs.Taken.{Stands, taken_of, ended_by};

use super::answers::{Taken, answered};
use super::ended::put;
use super::runner::runner;
use calls::{CallMode, ticks};
use rules::{Core, Item, Place, Refusal, StepResult, Timer, Waiting};
use table::moves::{met, moved};
use table::place::{accepts_at, is_between, is_completed};
use table::tasks::task_of;

// Task t, which is running, queues on entry e of task g.
fn enqueued(s: Core, t: u8, g: u8, e: u8, w: Timer) -> Result<Taken, Refusal>
    requires { Stands s × (t ≤ length (view_core s).tasks) }
    ensures { result ≡ taken_of (enqueue (view_core s) t g e w) }
{
    let m = moved(
        s,
        t,
        Place::Queued(Waiting {
            target: g,
            entry: e,
        }),
        w,
    );
    Ok(answered(m, t, StepResult::Waits as u8, 0, 0, 0))
}

// The target is not there to accept: the caller waits, or not, as the mode says.
fn call_busy(s: Core, t: u8, g: u8, e: u8, m: CallMode) -> Result<Taken, Refusal>
    requires { Stands s × (t ≤ length (view_core s).tasks) }
    ensures { result ≡ taken_of (call_busy (view_core s) t g e m) }
{
    match m {
        CallMode::Simple => enqueued(s, t, g, e, Timer::Off),
        CallMode::Timed(d) => {
            let n = ticks(d);
            if n == 0 {
                return Ok(answered(s, t, StepResult::CallExpired as u8, e, g, 0));
            }
            let w = Timer::Due(s.clock.wrapping_add(n));
            enqueued(s, t, g, e, w)
        }
        CallMode::Conditional => Ok(answered(s, t, StepResult::NotNow as u8, e, g, 0)),
    }
}

// The running task calls entry e of task g: it is held at once, waits in that entry's queue, or does not wait.
pub fn call(s: Core, g: u8, e: u8, m: CallMode, room: &mut [u8]) -> Result<Taken, Refusal>
    requires { Stands s × (124 ≤ length room.old) }
    ensures value { result ≡ taken_of (take_call (view_core s) (Call g e m)) }
    ensures room { room.new ≡ room_after room.old (ended_by (take_call (view_core s) (Call g e m))) }
{
    let t = runner(s)?;
    if !is_between(g, s.created) {
        return Err(Refusal::NoTarget);
    }
    let x = task_of(s, g);
    if !is_between(e, x.entries) {
        return Err(Refusal::NoEntry);
    }
    let p = x.place;
    if is_completed(p) {
        return Ok(answered(s, t, StepResult::TaskingError as u8, e, g, 0));
    }
    if accepts_at(p, e) {
        put(
            room,
            Item {
                task: g,
                result: StepResult::Accepted.into(),
                entry: e,
                partner: t,
            },
        );
        let n = moved(s, g, Place::Ready, Timer::Off);
        let k = met(n, g, t, e);
        return Ok(answered(k, t, StepResult::Waits as u8, 0, 0, 1));
    }
    call_busy(s, t, g, e, m)
}
