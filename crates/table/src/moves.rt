// How tasks change their places: one of them (`moved`), or all of a line at once (`woken`), which is a move of each; and their current priorities, where a
// rendezvous begins (`met`) or ends (`parted`). Each function changes one copy of the state and reads from it: what reads the one that it was given, or hands it
// on, makes a copy more.
ghost use Rattle.std.specs.Prelude.{◌≡◌};
ghost use Rattle.lists.specs.Line.{line, pad};
ghost use Rattle.lists.specs.Marks.{no_marks, marked};
ghost use Rattle.rules.specs.State.{retime};
ghost use Rattle.rules.specs.Whole.{view_core};
ghost use Rattle.rules.specs.declared.Timer.TheVariants.{Off};
ghost use Rattle.table.specs.Moved.{moved_of, readied_of, woken_of, ready_ranked, ranked_of, met_of, parted_of, left_of, changed_task};

use super::place::{higher_of, is_between, is_held, is_ready, kept_of, ticks_left};
use super::tasks::{index_of, left_of, placed_at, ranked_at, shown};
use rules::{Core, Meeting, Place, Task, Timer};

// The ticks left of each of the line, by its number.
fn keys_of(s: Core, a: [u8; 31]) -> [u32; 32]
    ensures { result ≡ marked (left_of s) (line a) no_marks }
{
    let mut keys = [0u32; 32];
    for &x in &a {
        if x == 0 {
            return keys;
        }
        let at = index_of(x);
        let left = left_of(s.clock, s.created, x, s.tasks[at]);
        lines::mark(&mut keys, x, left);
    }
    keys
}

// The delay queue without t, and with t in its place if it has a time now.
fn retimed(s: Core, t: u8, w: Timer) -> [u8; 31]
    ensures { result ≡ pad (retime s.clock (view_core s).tasks w t (line s.delays)) }
{
    let delays = s.delays;
    let a = lines::without(delays, t);
    match w {
        Timer::Off => a,
        Timer::Due(d) => {
            let keys = keys_of(s, a);
            lines::put_by(a, t, keys, ticks_left(s.clock, w))
        }
    }
}

// What stands at the place of task t of n when it changes, where k stood there; k where t is no task's number.
fn changed_task<F: FnOnce(Task) -> Task>(n: u8, t: u8, k: Task, change: F) -> Task
    requires { F.IsAlwaysCallable change }
    ensures { (f : Task → Task) → ((x y : Task) → F.post change x y → y ≡ f x) → result ≡ changed_task f n t k }
{
    if is_between(t, 31) {
        change(shown(n, t, k))
    } else {
        k
    }
}

// Task t goes to place p with the time w.
pub fn moved(s: Core, t: u8, p: Place, w: Timer) -> Core
    ensures { result ≡ moved_of s t p w }
{
    let mut n = s;
    let ready = n.ready;
    let held = n.held;
    let ready_now = lines::rejoined(ready, t, is_ready(p));
    let held_now = lines::rejoined(held, t, is_held(p));
    let delays_now = retimed(n, t, w);
    let at = index_of(t);
    n.tasks[at] = changed_task(n.created, t, n.tasks[at], |x| placed_at(x, p, w));
    n.ready = ready_now;
    n.held = held_now;
    n.delays = delays_now;
    n
}

// The tasks of the line are ready, with no time; the lines are as they were.
fn readied(s: Core, l: [u8; 31]) -> Core
    ensures { result ≡ readied_of s (line l) }
{
    let mut n = s;
    for &t in &l {
        if t == 0 {
            return n;
        }
        let at = index_of(t);
        n.tasks[at] = changed_task(
            n.created,
            t,
            n.tasks[at],
            |x| placed_at(x, Place::Ready, Timer::Off),
        );
    }
    n
}

// All tasks of the line become ready. Where it has each once, that is a move for one after the other, but with one look at each line.
pub fn woken(s: Core, l: [u8; 31]) -> Core
    ensures { result ≡ woken_of s (line l) }
{
    let marks = lines::marks_of(l);
    let ready = s.ready;
    let held = s.held;
    let delays = s.delays;
    let still_ready = lines::picked(ready, marks, 0);
    let ready_now = lines::joined_all(still_ready, l);
    let held_now = lines::picked(held, marks, 0);
    let delays_now = lines::picked(delays, marks, 0);
    let mut n = readied(s, l);
    n.ready = ready_now;
    n.held = held_now;
    n.delays = delays_now;
    n
}

// The ready line when task t is lowered or not: lowered, it comes to the head.
fn ready_ranked(ready: [u8; 31], t: u8, lowered: bool) -> [u8; 31]
    ensures { result ≡ ready_ranked ready t lowered }
{
    if lowered {
        return lines::to_head(ready, t);
    }
    ready
}

// Task g's current priority becomes `level`: lowered, it goes to the head of its new level, else it keeps its place. Then task c goes to place p, with no time.
fn ranked_then_moved(s: Core, g: u8, level: u8, c: u8, p: Place) -> Core
    ensures { result ≡ moved_of (ranked_of s g level) c p Off }
{
    let mut n = s;
    let at = index_of(g);
    let x = shown(n.created, g, n.tasks[at]);
    let ready = n.ready;
    let held = n.held;
    let delays = n.delays;
    let ready_then = ready_ranked(ready, g, level < x.current);
    let ready_now = lines::rejoined(ready_then, c, is_ready(p));
    let held_now = lines::rejoined(held, c, is_held(p));
    let delays_now = lines::without(delays, c);
    n.tasks[at] = changed_task(n.created, g, n.tasks[at], |x| ranked_at(x, level));
    let to = index_of(c);
    n.tasks[to] = changed_task(n.created, c, n.tasks[to], |x| placed_at(x, p, Timer::Off));
    n.ready = ready_now;
    n.held = held_now;
    n.delays = delays_now;
    n
}

// A rendezvous of g with its caller c at entry e begins: g's current priority becomes the higher of the two, and c is held with what it was.
pub fn met(s: Core, g: u8, c: u8, e: u8) -> Core
    ensures { result ≡ met_of s g c e }
{
    let at = index_of(g);
    let x = shown(s.created, g, s.tasks[at]);
    let to = index_of(c);
    let y = shown(s.created, c, s.tasks[to]);
    let m = Meeting {
        holder: g,
        entry: e,
        kept: x.current,
    };
    ranked_then_moved(s, g, higher_of(x.current, y.current), c, Place::Held(m))
}

// The rendezvous of g with its caller c ends: g's current priority is what it was before, and c is ready.
pub fn parted(s: Core, g: u8, c: u8) -> Core
    ensures { result ≡ parted_of s g c }
{
    let at = index_of(c);
    let y = shown(s.created, c, s.tasks[at]);
    let p = y.place;
    ranked_then_moved(s, g, kept_of(p), c, Place::Ready)
}
