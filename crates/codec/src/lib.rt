// A supervisor in lent bytes: reading it, and putting it there.
#![tactic(auto)]

pub mod rows;

ghost use Rattle.std.specs.Prelude.{◌≡◌, ◌+◌, ◌≤◌, [], ◌∷◌, length, take, drop};
ghost use Rattle.std.specs.Bool.{then_some};
ghost use Rattle.lists.specs.Line.{blanks};
ghost use Rattle.rules.specs.State.{entry_of, kept_of};
ghost use Rattle.codec.specs.Layout.{state_size, task_size, place_tag, place_first, timer_tag, timer_due, task_bytes, tasks_bytes, is_place, is_timer, place_from, timer_from, is_task, task_from, lost, state_in, put_at, placed_at, placed_lines, stored};
ghost use Rattle.codec.specs.Used.{used_tasks, bare_in};

use calls::{bytes_of, word};
use rules::{Core, Meeting, Offer, Place, Supervisor, Task, Timer, Waiting};
use table::tasks::blank_task;

// How many bytes a task takes, where the lines stand, and how many a state takes.
pub const TASK_SIZE: usize = 12;

pub const READY_AT: usize = 5 + 31 * TASK_SIZE;

pub const CALLERS_AT: usize = READY_AT + 31;

pub const HELD_AT: usize = CALLERS_AT + 31;

pub const DELAYS_AT: usize = HELD_AT + 31;

pub const STATE_SIZE: usize = DELAYS_AT + 31;

// The four bytes of a place: its tag; the called task, the holder or the open set; the called entry; the priority kept.
// Functions and no `From`, here and for a time: none of these types is of this crate.
fn place_bytes(p: Place) -> [u8; 4]
    ensures { result ≡ place_tag p ∷ place_first p ∷ entry_of p ∷ kept_of p ∷ [] }
{
    match p {
        Place::Blank => [0, 0, 0, 0],
        Place::Ready => [1, 0, 0, 0],
        Place::Delayed => [2, 0, 0, 0],
        Place::Queued(q) => [3, q.target, q.entry, 0],
        Place::Held(m) => [4, m.holder, m.entry, m.kept],
        Place::Accepting(o) => [5, o.opens, 0, 0],
        Place::Completed => [6, 0, 0, 0],
    }
}

// A time's tag.
fn timer_tag(w: Timer) -> u8
    ensures { result ≡ timer_tag w }
{
    match w {
        Timer::Off => 0,
        Timer::Due(_) => 1,
    }
}

// The clock reading at which a time is due, 0 if there is none.
fn timer_due(w: Timer) -> u32
    ensures { result ≡ timer_due w }
{
    match w {
        Timer::Off => 0,
        Timer::Due(d) => d,
    }
}

// The bytes of a task.
fn task_bytes(x: Task) -> [u8; 12]
    ensures { result ≡ task_bytes x }
{
    let place = x.place;
    let w = x.timer;
    let p = place_bytes(place);
    let timed = timer_tag(w);
    let d = bytes_of(timer_due(w));
    [
        x.priority, x.current, x.entries, p[0], p[1], p[2], p[3], timed, d[0], d[1], d[2], d[3],
    ]
}

// The place of a tag and its three bytes, if they are one: each byte that its place does not use is 0.
fn place_from(tag: u8, a: u8, b: u8, k: u8) -> Option<Place>
    ensures { result ≡ then_some (is_place tag a b k) (place_from tag a b k) }
{
    match (tag, a, b, k) {
        (0, 0, 0, 0) => Some(Place::Blank),
        (1, 0, 0, 0) => Some(Place::Ready),
        (2, 0, 0, 0) => Some(Place::Delayed),
        (3, target, entry, 0) => Some(Place::Queued(Waiting { target, entry })),
        (4, holder, entry, kept) => Some(Place::Held(Meeting {
            holder,
            entry,
            kept,
        })),
        (5, opens, 0, 0) => Some(Place::Accepting(Offer { opens })),
        (6, 0, 0, 0) => Some(Place::Completed),
        _ => None,
    }
}

// The time of a tag and a reading, if they are one: off with 0, or due at the reading.
fn timer_from(tag: u8, due: u32) -> Option<Timer>
    ensures { result ≡ then_some (is_timer tag due) (timer_from tag due) }
{
    match (tag, due) {
        (0, 0) => Some(Timer::Off),
        (1, due) => Some(Timer::Due(due)),
        _ => None,
    }
}

// The task of bytes, if they are one.
fn task_in(b: &[u8]) -> Option<Task>
    requires { task_size ≤ length b.now }
    ensures { result ≡ then_some (is_task b.now) (task_from b.now) }
{
    let place = place_from(b[3], b[4], b[5], b[6])?;
    let timer = timer_from(b[7], word(b[8], b[9], b[10], b[11]))?;
    Some(Task {
        priority: b[0],
        current: b[1],
        entries: b[2],
        place,
        timer,
    })
}

// Whether all bytes are 0. `fold` and no `all`: it reads them many at a time, and is seldom done early. `soundness` has the like of a line
// from a place on; neither crate rests on the other.
fn are_zero(b: &[u8]) -> bool
    ensures { result ≡ blanks b.now }
{
    b.iter().fold(0, |seen, x| seen | *x) == 0
}

// How many tasks of the table have to be read: the bytes behind them are 0, which is blank tasks.
fn used_tasks(b: &[u8]) -> usize
    ensures { result ≡ used_tasks b.now }
{
    if b.len() < STATE_SIZE {
        return 0;
    }
    let n = usize::from(b[4]);
    if 31 < n {
        return 31;
    }
    let behind = 5 + n * TASK_SIZE;
    if are_zero(&b[behind..READY_AT]) {
        n
    } else {
        31
    }
}

// The line at an index.
fn line_from(b: &[u8], at: usize) -> [u8; 31]
    requires { at + 31 ≤ length b.now }
    ensures { result ≡ take 31 (drop at b.now) }
{
    let mut line = [0u8; 31];
    let e = at + 31;
    line.copy_from_slice(&b[at..e]);
    line
}

// A state that is not sound.
fn lost_state() -> Supervisor
    ensures { result ≡ lost }
{
    let tasks = [blank_task(); 31];
    let line = [0u8; 31];
    let core = Core {
        clock: 0,
        created: 255,
        tasks,
        ready: line,
        held: line,
        delays: line,
    };
    Supervisor {
        core,
        callers: line,
    }
}

// The state of lent bytes before its tasks are read: all are blank. One that is not sound where the bytes are too few.
fn bare_state(b: &[u8]) -> Supervisor
    ensures { result ≡ bare_in b.now }
{
    if STATE_SIZE <= b.len() {
        let clock = word(b[0], b[1], b[2], b[3]);
        let tasks = [blank_task(); 31];
        let ready = line_from(b, READY_AT);
        let callers = line_from(b, CALLERS_AT);
        let held = line_from(b, HELD_AT);
        let delays = line_from(b, DELAYS_AT);
        let core = Core {
            clock,
            created: b[4],
            tasks,
            ready,
            held,
            delays,
        };
        return Supervisor { core, callers };
    }
    lost_state()
}

// The state of lent bytes; one that is not sound where they are no encoding.
pub fn state_in(b: &[u8]) -> Supervisor
    ensures { result ≡ state_in b.now }
{
    let bare = bare_state(b);
    let callers = bare.callers;
    let mut core = bare.core;
    let n = used_tasks(b);
    // by the index: after a loop over `core.tasks[..n].iter_mut()` the proof knows nothing of the table
    for i in 0..n {
        let Some(task) = task_in(&b[5 + i * TASK_SIZE..]) else {
            return lost_state();
        };
        core.tasks[i] = task;
    }
    Supervisor { core, callers }
}

// Puts a piece at an index of the room, or nothing where it has no room there.
// Two tests and no `get_mut(at..at + n)`: the sum could be too large, so it would be no plainer.
pub fn put_at(room: &mut [u8], at: usize, piece: &[u8])
    ensures { room.new ≡ placed_at room.old at piece.now }
{
    let n = piece.len();
    if room.len() < n {
        return;
    }
    if room.len() - n < at {
        return;
    }
    let e = at + n;
    room[at..e].copy_from_slice(piece);
}

// Puts the tasks of a state behind the clock and the number of tasks.
fn put_tasks(room: &mut [u8], tasks: [Task; 31])
    requires { state_size ≤ length room.old }
    ensures { room.new ≡ put_at room.old 5 (tasks_bytes tasks) }
{
    for (i, &task) in tasks.iter().enumerate() {
        put_at(room, 5 + i * TASK_SIZE, &task_bytes(task));
    }
}

// Puts the four lines behind the tasks.
fn put_lines(room: &mut [u8], ready: [u8; 31], callers: [u8; 31], held: [u8; 31], delays: [u8; 31])
    ensures { room.new ≡ placed_lines room.old ready callers held delays }
{
    put_at(room, READY_AT, &ready);
    put_at(room, CALLERS_AT, &callers);
    put_at(room, HELD_AT, &held);
    put_at(room, DELAYS_AT, &delays);
}

// Puts a state into lent bytes, if they are long enough.
pub fn store(s: Supervisor, room: &mut [u8])
    ensures { room.new ≡ stored s room.old }
{
    if room.len() < STATE_SIZE {
        return;
    }
    let n = bytes_of(s.core.clock);
    let head = [n[0], n[1], n[2], n[3], s.core.created];
    put_at(room, 0, &head);
    let tasks = s.core.tasks;
    put_tasks(room, tasks);
    let ready = s.core.ready;
    let callers = s.callers;
    let held = s.core.held;
    let delays = s.core.delays;
    put_lines(room, ready, callers, held, delays);
}
