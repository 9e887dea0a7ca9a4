// The soundness check: whether a state is sound, as the rules say it. The modules are this crate's own: what others see is
// `is_sound`. One pass over the created tasks tells whether they are good and who belongs into which line; then one over each line.
// A function that takes the state and looks up tasks in it copies it whole: so no function that is called for each task takes it, and
// `is_sound` alone hands it on, so that no two copies are alive at a time.
#![tactic(auto)]

ghost use Rattle.std.specs.Prelude.{◌≡◌, ◌≤◌, ◌&&◌, drop};
ghost use Rattle.lists.specs.Lists.{every};
ghost use Rattle.rules.specs.Second.{sound_second};
ghost use Rattle.rules.specs.Whole.{unused, sound_whole};
ghost use Rattle.soundness.specs.Check.{holds_in, told_of, checked_of};

use rules::{Core, Row, Second, Supervisor};
use table::place::{has_time, is_between, is_held, is_queued, is_ready, partner_of};
use table::tasks::{blank_task, index_of};

mod marks;
mod rows;
mod stand;
mod task;
mod tree;

// All places behind the created tasks are blank.
fn all_unused(s: Core) -> bool
    ensures { result ≡ every unused (drop s.created s.tasks) }
{
    s.tasks
        .iter()
        .skip(usize::from(s.created))
        .all(|x| task::is_unused(*x))
}

// What is told of the created tasks: for each line which of them belong into it, and which have another current priority than the one
// with which they were created.
#[derive(Clone, Copy)]
struct Told {
    ready: u32,
    callers: u32,
    held: u32,
    delays: u32,
    changed: u32,
}

// One pass over the created tasks, from the last to the first, if each is good beside the task that it has called.
fn told_of(s: Core) -> Option<Told>
    requires { s.created ≤ 31 }
    ensures { result ≡ told_of s }
{
    let mut ready: u32 = 0;
    let mut callers: u32 = 0;
    let mut held: u32 = 0;
    let mut delays: u32 = 0;
    let mut changed: u32 = 0;
    for &x in s.tasks[..usize::from(s.created)].iter().rev() {
        let u = partner_of(x.place);
        let mut called = blank_task();
        if is_between(u, s.created) {
            called = s.tasks[index_of(u)];
        }
        if !task::is_good(s.clock, x, called) {
            return None;
        }
        ready = marks::next(ready, is_ready(x.place));
        callers = marks::next(callers, is_queued(x.place));
        held = marks::next(held, is_held(x.place));
        delays = marks::next(delays, has_time(x.timer));
        changed = marks::next(changed, x.current != x.priority);
    }
    Some(Told {
        ready,
        callers,
        held,
        delays,
        changed,
    })
}

// Whether two of the lines hold those who belong into them. The lines are taken out of the state: looked up in it, they would copy it whole.
fn lines_hold(s: Core, told: Told) -> bool
    ensures { result ≡ (holds_in told.ready s.ready && holds_in told.held s.held) }
{
    let ready = s.ready;
    let held = s.held;
    stand::holds(&ready, told.ready) & stand::holds(&held, told.held)
}

// The check of a core, which both engines share: if it is sound but for the callers, who belongs into their queues. Task 1 is bit 0.
fn core_check(s: Core) -> Option<u32>
    ensures { result ≡ checked_of s }
{
    if s.created > 31 {
        return None;
    }
    let told = told_of(s)?;
    let good = all_unused(s)
        & lines_hold(s, told)
        & stand::delays_hold(s, told.delays)
        & tree::is_tree(s, told.held, told.changed);
    good.then_some(told.callers)
}

// Whether the state of the first engine is sound, handed in by its two parts: who has them does not copy the whole.
// A `match`, here and in `rows_sound`: with `is_some_and` the proof did not get from its contract to what the closure answers.
pub fn parts_sound(core: Core, callers: [u8; 31]) -> bool
    ensures { result ≡ sound_whole (record { core = core; callers = callers }) }
{
    match core_check(core) {
        Some(queued) => stand::holds(&callers, queued),
        None => false,
    }
}

// Whether the state of the first engine is sound.
pub fn is_sound(s: Supervisor) -> bool
    ensures { result ≡ sound_whole s }
{
    let callers = s.callers;
    parts_sound(s.core, callers)
}

// Whether the state of the second engine is sound, handed in by its two parts.
pub fn rows_sound(core: Core, rows: [Row; 31]) -> bool
    ensures { result ≡ sound_second (record { core = core; rows = rows }) }
{
    match core_check(core) {
        Some(queued) => rows::rows_hold(rows, rows::targets_of(core), queued),
        None => false,
    }
}

// Whether the state of the second engine is sound: beside `is_sound`, since the theorems `is_sound_once` and `is_sound_second_once` name both.
pub fn is_sound_second(x: Second) -> bool
    ensures { result ≡ sound_second x }
{
    let rows = x.rows;
    rows_sound(x.core, rows)
}
