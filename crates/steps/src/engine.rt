// What both engines have beside the calls: the core of an empty supervisor, and what two of the questions ask of a core.
ghost use Rattle.std.specs.Prelude.{◌≡◌};
ghost use Rattle.rules.specs.State.{empty};
ghost use Rattle.rules.specs.Whole.{pack_core};
ghost use Rattle.steps.specs.Engine.{callable_in, queued_in};

use rules::Core;
use table::place::{is_between, is_completed};
use table::queues::{Test, picked};
use table::tasks::{blank_task, task_of};

// The core of a supervisor with no tasks.
pub fn empty_core(clock: u32) -> Core
    ensures { result ≡ pack_core (empty clock) }
{
    let line = [0u8; 31];
    Core {
        clock,
        created: 0,
        tasks: [blank_task(); 31],
        ready: line,
        held: line,
        delays: line,
    }
}

// How many of a line of callers are queued on entry e of task t.
pub fn queue_length(core: Core, callers: [u8; 31], t: u8, e: u8) -> usize
    ensures { result ≡ queued_in core callers t e }
{
    let on = Test::QueuedOn {
        target: t,
        entry: e,
    };
    lines::len(picked(core, callers, on))
}

// Whether task t was created and has not completed.
pub fn is_callable(core: Core, t: u8) -> bool
    ensures { result ≡ callable_in core t }
{
    is_between(t, core.created) & !is_completed(task_of(core, t).place)
}
