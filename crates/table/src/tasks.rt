// The table of tasks.
ghost use Rattle.std.specs.Prelude.{◌≡◌, ◌<◌};
ghost use Rattle.rules.specs.State.{blank, task_of, fresh, placed, ranked, ticks_left};
ghost use Rattle.rules.specs.Whole.{view_core};
ghost use Rattle.table.specs.Moved.{with_task};
ghost use Rattle.table.specs.Numbers.{index_of, shown_of};

use super::place::{is_between, ticks_left};
use rules::{Core, Place, Task, Timer};

pub fn blank_task() -> Task
    ensures { result ≡ blank }
{
    Task {
        priority: 0,
        current: 0,
        entries: 0,
        place: Place::Blank,
        timer: Timer::Off,
    }
}

pub fn fresh_task(priority: u8, entries: u8) -> Task
    ensures { result ≡ fresh priority entries }
{
    Task {
        priority,
        current: priority,
        entries,
        place: Place::Ready,
        timer: Timer::Off,
    }
}

// The task in another place, with another time.
pub fn placed_at(x: Task, p: Place, w: Timer) -> Task
    ensures { result ≡ placed x p w }
{
    Task {
        place: p,
        timer: w,
        ..x
    }
}

// The task with another current priority.
pub fn ranked_at(x: Task, n: u8) -> Task
    ensures { result ≡ ranked x n }
{
    Task { current: n, ..x }
}

// Where task t stands in the table; 0 where t is no task's number.
pub fn index_of(t: u8) -> usize
    ensures { (result ≡ index_of t) × (result < 31) }
{
    if is_between(t, 31) {
        (t - 1) as usize
    } else {
        0
    }
}

// Of n tasks, task t, where k is what stands at its place in the table; a blank one where t is the number of none.
pub fn shown(n: u8, t: u8, k: Task) -> Task
    ensures { result ≡ shown_of n t k }
{
    if is_between(t, 31) & (t <= n) {
        k
    } else {
        blank_task()
    }
}

// The ticks left of task x of n, where k stands at its place in the table.
pub fn left_of(now: u32, n: u8, x: u8, k: Task) -> u32
    ensures { result ≡ ticks_left now (shown_of n x k).timer }
{
    let y = shown(n, x, k);
    let w = y.timer;
    ticks_left(now, w)
}

// Task t; a blank one where t is the number of none.
pub fn task_of(s: Core, t: u8) -> Task
    ensures { result ≡ task_of (view_core s) t }
{
    let at = index_of(t);
    shown(s.created, t, s.tasks[at])
}

// The struct with task t as x.
pub fn with_task(s: Core, t: u8, x: Task) -> Core
    ensures { result ≡ with_task s t x }
{
    let mut n = s;
    if is_between(t, 31) {
        let at = (t - 1) as usize;
        n.tasks[at] = x;
    }
    n
}
