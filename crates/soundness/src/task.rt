// Tests on one task, and on the task that it has called.
ghost use Rattle.std.specs.Prelude.{◌≡◌};
ghost use Rattle.rules.specs.Sound.{calls, fits, time_in_range, good_task};
ghost use Rattle.rules.specs.Whole.{is_blank, unused};

use rules::{Place, Task, Timer};
use table::place::{accepts_at, has_time, in_range, is_between, is_completed, is_too_wide};

fn is_blank(p: Place) -> bool
    ensures { result ≡ is_blank p }
{
    matches!(p, Place::Blank)
}

pub fn is_unused(x: Task) -> bool
    ensures { result ≡ unused x }
{
    let p = x.place;
    let w = x.timer;
    (x.priority == 0) & (x.entries == 0) & is_blank(p) & !has_time(w) & (x.current == 0)
}

// Whether e is an entry of the called task g.
fn calls_entry(g: Task, e: u8) -> bool
    ensures { result ≡ calls g e }
{
    let p = g.place;
    (0 < e) & (e <= g.entries) & !is_completed(p)
}

fn is_fit(me: Task, g: Task, p: Place, w: Timer) -> bool
    ensures { result ≡ fits me g p w }
{
    let n = me.entries;
    let timed = has_time(w);
    match p {
        Place::Blank => false,
        Place::Ready => !timed,
        Place::Delayed => timed,
        Place::Queued(a) => {
            let q = g.place;
            calls_entry(g, a.entry) & !accepts_at(q, a.entry)
        }
        Place::Held(m) => calls_entry(g, m.entry) & !timed & is_between(m.kept, 15),
        Place::Accepting(o) => !is_too_wide(o.opens, n) & ((0 < o.opens) | timed),
        Place::Completed => !timed,
    }
}

fn is_in_time(now: u32, w: Timer) -> bool
    ensures { result ≡ time_in_range now w }
{
    match w {
        Timer::Off => true,
        Timer::Due(d) => {
            let left = d.wrapping_sub(now);
            (0 < left) & (left <= 2147483647)
        }
    }
}

// The task's numbers, its place and its time, where g is the task that it has called.
pub fn is_good(now: u32, me: Task, g: Task) -> bool
    ensures { result ≡ good_task now me g }
{
    let p = me.place;
    let w = me.timer;
    in_range(me.priority, me.entries)
        & is_fit(me, g, p, w)
        & is_in_time(now, w)
        & is_between(me.current, 15)
}
