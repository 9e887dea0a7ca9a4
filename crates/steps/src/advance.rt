// TICK and ADVANCE: all those whose time comes within the ticks become ready at once, in the order of the delay queue.
ghost use Rattle.std.specs.Prelude.{◌≡◌, ◌≤◌, length};
ghost use Rattle.calls.specs.declared.Call.TheVariants.{Tick, Advance};
ghost use Rattle.lists.specs.Line.{line, pad};
ghost use Rattle.rules.specs.Advance.{changes, due_within};
ghost use Rattle.rules.specs.Step.{take_call, room_after};
ghost use Rattle.rules.specs.Whole.{view_core};
ghost use Rattle.steps.specs.Taken.{Stands, taken_of, ended_by, passing};
ghost use Rattle.table.specs.Moved.{left_of};

use super::answers::{Taken, answered};
use super::ended::wake_all;
use rules::{Core, Refusal, StepResult};
use table::queues::{Test, picked};
use table::tasks::{index_of, left_of};

// Those whose time comes within n ticks, in the order of the delay queue.
fn due_within(s: Core, n: u32) -> [u8; 31]
    ensures { result ≡ pad (due_within (view_core s) n) }
{
    let delays = s.delays;
    picked(
        s,
        delays,
        Test::DueWithin {
            now: s.clock,
            ticks: n,
        },
    )
}

// How many different numbers of ticks are left to those of a line in order of ticks left, all above 0.
fn moments_of(s: Core, l: [u8; 31]) -> u8
    ensures { result ≡ changes (left_of s) 0 (line l) }
{
    let mut n: u8 = 0;
    let mut before: u32 = 0;
    for t in l {
        if t == 0 {
            return n;
        }
        let at = index_of(t);
        let left = left_of(s.clock, s.created, t, s.tasks[at]);
        n += u8::from(left != before);
        before = left;
    }
    n
}

// The clock goes on by n ticks, and those of the line, whose time comes within them, become ready. The answer's entry is as given.
fn passed(s: Core, l: [u8; 31], n: u32, entry: u8, room: &mut [u8]) -> Result<Taken, Refusal>
    requires { Stands s × (124 ≤ length room.old) × (l ≡ pad (due_within (view_core s) n)) }
    ensures value { result ≡ taken_of (passing (view_core s) n entry) }
    ensures room { room.new ≡ room_after room.old (ended_by (passing (view_core s) n entry)) }
{
    let reading = s.clock.wrapping_add(n);
    let w = wake_all(s, l, false, room);
    let mut m = w.state;
    m.clock = reading;
    Ok(answered(m, 0, StepResult::Done as u8, entry, 0, w.count))
}

// The clock goes on by one.
pub fn tick(s: Core, room: &mut [u8]) -> Result<Taken, Refusal>
    requires { Stands s × (124 ≤ length room.old) }
    ensures value { result ≡ taken_of (take_call (view_core s) Tick) }
    ensures room { room.new ≡ room_after room.old (ended_by (take_call (view_core s) Tick)) }
{
    let l = due_within(s, 1);
    passed(s, l, 1, 0, room)
}

// The clock goes on by n. The answer's entry is the number of readings at which a wait ended.
pub fn advance(s: Core, n: u32, room: &mut [u8]) -> Result<Taken, Refusal>
    requires { Stands s × (124 ≤ length room.old) }
    ensures value { result ≡ taken_of (take_call (view_core s) (Advance n)) }
    ensures room { room.new ≡ room_after room.old (ended_by (take_call (view_core s) (Advance n))) }
{
    let l = due_within(s, n);
    let moments = moments_of(s, l);
    passed(s, l, n, moments, room)
}
