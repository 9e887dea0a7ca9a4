// The tree of held callers as marks: who is held by whom, and the priorities with which the tasks were created. The priority of a task is
// worked out afresh down the tree.
ghost use Rattle.std.specs.Prelude.{◌≡◌};
ghost use Rattle.lists.specs.Line.{line};
ghost use Rattle.table.specs.Tree.{holders_of, priorities_of, highest_in};

use super::place::{higher_of, partner_of};
use super::tasks::{index_of, shown};
use rules::Core;

// Each of those held marked with its holder.
fn holders_of(s: Core) -> [u8; 32]
    ensures { result ≡ holders_of s }
{
    let mut marks = [0u8; 32];
    for &c in &s.held {
        if c == 0 {
            return marks;
        }
        let at = index_of(c);
        let x = shown(s.created, c, s.tasks[at]);
        let p = x.place;
        let g = partner_of(p);
        lines::mark(&mut marks, c, g);
    }
    marks
}

// Each task marked with the priority with which it was created.
fn priorities_of(s: Core) -> [u8; 32]
    ensures { result ≡ priorities_of s }
{
    let mut known = [0u8; 32];
    for t in (1..=s.created).rev() {
        let at = index_of(t);
        let x = shown(s.created, t, s.tasks[at]);
        lines::mark(&mut known, t, x.priority);
    }
    known
}

// The highest created priority among t and everyone below it, as many levels down as `depth` says. The tree is told by marks, so that
// no level copies the state: those held, the holder of each, and the priority with which each task was created.
fn highest(held: [u8; 31], holders: [u8; 32], priorities: [u8; 32], t: u8, depth: u8) -> u8
    ensures { result ≡ highest_in (line held) holders priorities depth t }
{
    let own = lines::mark_of(priorities, t);
    if depth == 0 {
        return own;
    }
    let mut best = own;
    let callers = lines::picked(held, holders, t);
    for &c in &callers {
        if c == 0 {
            return best;
        }
        let below = highest(held, holders, priorities, c, depth - 1);
        best = higher_of(best, below);
    }
    best
}

// The highest created priority among t and everyone below it: below a task that nobody holds there are at most 30 levels.
pub fn highest_of(s: Core, t: u8) -> u8
    ensures { result ≡ highest_in (line s.held) (holders_of s) (priorities_of s) 30 t }
{
    let held = s.held;
    let holders = holders_of(s);
    let priorities = priorities_of(s);
    highest(held, holders, priorities, t, 30)
}
