// Who is queued on a task: the caller that SELECT takes, and all whom FINISH wakes.
ghost use Rattle.std.specs.Prelude.{◌≡◌, ◌++◌, nat_eq};
ghost use Rattle.lists.specs.Line.{line, pad};
ghost use Rattle.lists.specs.Lists.{when◌then◌else◌, count};
ghost use Rattle.lists.specs.Marks.{no_marks, marked, with_mark};
ghost use Rattle.rules.specs.Step.{queued_on};
ghost use Rattle.rules.specs.Whole.{view_core};
ghost use Rattle.steps.specs.Taken.{seen};
ghost use Rattle.steps.specs.Lowest.{open_call, call_of, nobody, lower_of, lowest_of};
ghost use Rattle.table.specs.Numbers.{shown_of};

use rules::{Core, Task};
use table::place::{entry_of, is_between, is_open, is_queued, partner_of};
use table::tasks::{index_of, shown};

// A caller, and the open entry that it has called.
// Entry 9, which no task has, stands for none, as in specs/Lowest.antt: so one comparison of numbers finds the lowest, and marks can hold it.
#[derive(Clone, Copy)]
pub struct Caller {
    pub task: u8,
    pub entry: u8,
}

// The open entry of task t that task c has called, of n tasks, where k stands at its place in the table; 9 where there is none.
fn open_call(t: u8, o: u8, n: u8, c: u8, k: Task) -> u8
    ensures { result ≡ open_call t o (shown_of n c k).place }
{
    let x = shown(n, c, k);
    let p = x.place;
    let e = entry_of(p);
    if is_queued(p) & (partner_of(p) == t) & is_between(e, 8) & is_open(o, e) {
        e
    } else {
        9
    }
}

// The caller of the lower entry; of the same entry the earlier one.
fn lower(b: Caller, c: u8, e: u8) -> Caller
    ensures { result ≡ lower_of b c e }
{
    if e < b.entry {
        Caller { task: c, entry: e }
    } else {
        b
    }
}

// The longest-waiting caller of the lowest open entry of task t that has one.
pub fn lowest(s: Core, mine: [u8; 31], t: u8, o: u8) -> Caller
    ensures { result ≡ lowest_of (call_of (view_core s) t o) nobody (line mine) }
{
    let mut b = Caller { task: 0, entry: 9 };
    for c in mine {
        if c == 0 {
            return b;
        }
        let at = index_of(c);
        let k = s.tasks[at];
        b = lower(b, c, open_call(t, o, s.created, c, k));
    }
    b
}

// Each caller marked with the entry of task t that it has called; with 9 where it has called none.
fn entries_called(s: Core, mine: [u8; 31], t: u8) -> [u8; 32]
    ensures { result ≡ marked (call_of (view_core s) t 255) (line mine) no_marks }
{
    let mut marks = [0u8; 32];
    for c in mine {
        if c == 0 {
            return marks;
        }
        let at = index_of(c);
        let k = s.tasks[at];
        let e = open_call(t, 255, s.created, c, k);
        lines::mark(&mut marks, c, e);
    }
    marks
}

// Line r, and behind it the callers with the mark of entry e. Where none has it, which is seen at once, the line is not walked.
fn with_queue(r: [u8; 31], callers: [u8; 31], marks: [u8; 32], e: u8) -> [u8; 31]
    ensures { result ≡ (when nat_eq (count e marks) 0 then r else pad (line r ++ with_mark marks e (line callers))) }
{
    if !marks.contains(&e) {
        return r;
    }
    let q = lines::picked(callers, marks, e);
    lines::joined_all(r, q)
}

// All callers queued on task t, entry 1 first, each queue from its head. Entries are numbers and no list: the loop goes over them.
pub fn queued_on(s: Core, mine: [u8; 31], t: u8) -> [u8; 31]
    ensures { result ≡ pad (queued_on (seen s mine) t) }
{
    let marks = entries_called(s, mine, t);
    let mut r = [0u8; 31];
    for e in 1..9 {
        let next = with_queue(r, mine, marks, e);
        r = next;
    }
    r
}
