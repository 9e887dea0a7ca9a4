// Who makes a call.
ghost use Rattle.std.specs.Prelude.{◌≡◌, ◌≢◌, MatchResult};
ghost use Rattle.rules.specs.State.{running};
ghost use Rattle.rules.specs.Whole.{view_core};
ghost use Rattle.rules.specs.declared.Refusal.TheVariants.{NoTask};

use rules::{Core, Refusal};
use table::dispatch::running;

// The running task. Where nobody is ready, its call is refused.
pub fn runner(s: Core) -> Result<u8, Refusal>
    ensures { MatchResult result (λ t. (t ≡ running (view_core s)) × (t ≢ 0)) (λ why. (why ≡ NoTask) × (running (view_core s) ≡ 0)) }
{
    match running(s) {
        0 => Err(Refusal::NoTask),
        t => Ok(t),
    }
}
