// The running task.
ghost use Rattle.std.specs.Prelude.{◌≡◌};
ghost use Rattle.rules.specs.State as state;
ghost use Rattle.rules.specs.Whole.{view_core};
ghost use Rattle.table.specs.Best.{better_of, last_of};

use rules::Core;

// A task and its current priority.
#[derive(Clone, Copy)]
pub struct Best {
    pub task: u8,
    pub priority: u8,
}

// The last task that has a place in the table, where n are created.
fn last_of(n: u8) -> u8
    ensures { result ≡ last_of n }
{
    n.min(31)
}

// The better of one and the next, whose current priority is p: the first of the highest level.
fn better(b: Best, t: u8, p: u8) -> Best
    ensures { result ≡ better_of b t p }
{
    let level = if p <= 15 { p } else { 0 };
    if b.priority < level {
        Best {
            task: t,
            priority: level,
        }
    } else {
        b
    }
}

// The running task: the head of the highest ready queue that is not empty, 0 where nobody is ready.
pub fn running(s: Core) -> u8
    ensures { result ≡ state.running (view_core s) }
{
    let n = last_of(s.created);
    let mut b = Best {
        task: 0,
        priority: 0,
    };
    for &t in &s.ready {
        if t == 0 {
            return b.task;
        }
        if t <= n {
            let at = (t - 1) as usize;
            b = better(b, t, s.tasks[at].current);
        }
    }
    b.task
}
