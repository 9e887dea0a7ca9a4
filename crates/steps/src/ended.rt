// Ended waits: their items in the lent room, and the tasks that wake.
ghost use Rattle.std.specs.Prelude.{◌≡◌, ◌*◌, ◌≤◌, [], ◌∷◌, map, length};
ghost use Rattle.lists.specs.Line.{line};
ghost use Rattle.rules.specs.Step.{room_after};
ghost use Rattle.rules.specs.Whole.{view_core};
ghost use Rattle.steps.specs.Taken.{Stands, item_at, item_of, EachOnce, WokenAs};
ghost use Rattle.table.specs.Numbers.{shown_of};

use rules::{Core, Item, StepResult, Task};
use table::moves::woken;
use table::place::{entry_of, expiry_of, partner_of};
use table::tasks::{index_of, shown};

// The item's four bytes at the front of the room.
pub fn put(room: &mut [u8], w: Item)
    requires { 4 ≤ length room.old }
    ensures { room.new ≡ room_after room.old (w ∷ []) }
{
    room[0] = w.task;
    room[1] = w.result;
    room[2] = w.entry;
    room[3] = w.partner;
}

// The item of a wait that ends, by FINISH of the called task if it failed, else by time: two ends, which a closure would say no shorter. Of n
// tasks, task t waited, and k stands at its place in the table.
fn item_of(failed: bool, n: u8, t: u8, k: Task) -> Item
    ensures { result ≡ item_at failed t (shown_of n t k).place }
{
    let x = shown(n, t, k);
    let p = x.place;
    let entry = entry_of(p);
    let partner = partner_of(p);
    if failed {
        return Item {
            task: t,
            result: StepResult::TaskingError.into(),
            entry,
            partner,
        };
    }
    Item {
        task: t,
        result: expiry_of(p),
        entry,
        partner,
    }
}

// Writes the items of a line of waiting tasks one behind the other; how many they are.
// Document 01: the rest of the lent room, from the item's offset, is handed on for writing.
fn put_items(s: Core, l: [u8; 31], failed: bool, room: &mut [u8]) -> u8
    requires { length (line l) * 4 ≤ length room.old }
    ensures value { result ≡ length (line l) }
    ensures room { room.new ≡ room_after room.old (map (item_of (view_core s) failed) (line l)) }
{
    let mut n: u8 = 0;
    for t in l {
        if t == 0 {
            return n;
        }
        let at = index_of(t);
        let k = s.tasks[at];
        let w = item_of(failed, s.created, t, k);
        let from = usize::from(n) * 4;
        put(&mut room[from..], w);
        n += 1;
    }
    n
}

// What is left when a line of tasks was woken: the state, and how many they were.
#[derive(Clone, Copy)]
pub struct Woken {
    pub state: Core,
    pub count: u8,
}

// Each task of the line becomes ready, and its item is written directly behind the one before.
pub fn wake_all(s: Core, l: [u8; 31], failed: bool, room: &mut [u8]) -> Woken
    requires { Stands s × (length (line l) * 4 ≤ length room.old) × EachOnce (view_core s) (line l) }
    ensures { WokenAs (view_core s) failed (line l) result.state result.count room.old room.new }
{
    if lines::first_of(l) == 0 {
        return Woken { state: s, count: 0 };
    }
    let n = put_items(s, l, failed, room);
    let m = woken(s, l);
    Woken { state: m, count: n }
}
