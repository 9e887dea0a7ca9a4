// The queues, picked out of a line by a test that is data.
ghost use Rattle.std.specs.Prelude.{◌≡◌, ◌&&◌, ◌==◌};
ghost use Rattle.lists.specs.Line.{line, pad};
ghost use Rattle.lists.specs.Lists.{filter};
ghost use Rattle.rules.specs.Advance.{comes_in};
ghost use Rattle.rules.specs.State.{is_queued, is_held, partner_of, entry_of};
ghost use Rattle.rules.specs.Whole.{view_core};
ghost use Rattle.table.specs.Moved.{is_picked, passes_of};

use super::place::ticks_left;
use super::tasks::{index_of, shown};
use rules::{Core, Place, Task, Timer};

// What picks a queue out of a line. It is data and no closure, since it is an argument of the definition `passes_of`, and `picked_once` holds of any test.
#[derive(Clone, Copy)]
pub enum Test {
    QueuedOn { target: u8, entry: u8 },
    HeldBy { holder: u8 },
    DueWithin { now: u32, ticks: u32 },
}

// Whether a task in this place waits on entry e of task t.
fn waits_on(p: Place, t: u8, e: u8) -> bool
    ensures { result ≡ (is_queued p && partner_of p == t && entry_of p == e) }
{
    matches!(p, Place::Queued(q) if (q.target == t) & (q.entry == e))
}

// Whether a task in this place is held by g.
fn is_held_by(p: Place, g: u8) -> bool
    ensures { result ≡ (is_held p && partner_of p == g) }
{
    matches!(p, Place::Held(m) if m.holder == g)
}

// Whether a time comes within n ticks from now.
fn comes_in(now: u32, n: u32, w: Timer) -> bool
    ensures { result ≡ comes_in now n w }
{
    (1..=n).contains(&ticks_left(now, w))
}

// Whether a task passes.
fn passes(x: Task, q: Test) -> bool
    ensures { result ≡ is_picked x q }
{
    let p = x.place;
    let w = x.timer;
    match q {
        Test::QueuedOn { target, entry } => waits_on(p, target, entry),
        Test::HeldBy { holder } => is_held_by(p, holder),
        Test::DueWithin { now, ticks } => comes_in(now, ticks, w),
    }
}

// Those of the line that pass.
pub fn picked(s: Core, a: [u8; 31], q: Test) -> [u8; 31]
    ensures { result ≡ pad (filter (passes_of (view_core s) q) (line a)) }
{
    lines::kept(a, |x| passes(shown(s.created, x, s.tasks[index_of(x)]), q))
}
