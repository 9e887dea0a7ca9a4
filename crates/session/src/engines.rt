// An engine, as a turn sees it. Both engines are one: what is written over the trait is proved once, for both. The methods of its impls are
// always inlined: a call of one would copy the state once more.
ghost use Rattle.std.specs.Prelude.{◌≡◌, length};
ghost use Rattle.rules.specs.Step.{room_after};
ghost use Rattle.rules.specs.Whole.{stepped_of};
ghost use Rattle.session.specs.Engines.{Rules, first, second};

use calls::Call;
use rules::{BadState, Second, Stepped, Supervisor};

pub trait Engine: Copy {
    // Its rules.
    ghost ruled: { Rules Self };

    // A supervisor with no tasks.
    fn empty(clock: u32) -> Self
        ensures { result ≡ ruled.start clock };

    // One call.
    fn step(self, c: Call, room: &mut [u8]) -> Stepped<Self>
        ensures value { result ≡ stepped_of (ruled.step self c (length room.old)) }
        ensures room { room.new ≡ room_after room.old (ruled.step self c (length room.old)).ended };

    // Who runs.
    fn running(self) -> Result<u8, BadState>
        ensures { result ≡ ruled.running self };
}

impl Engine for Supervisor {
    ghost ruled = { first };

    #[inline(always)]
    fn empty(clock: u32) -> Supervisor {
        supervisor::empty(clock)
    }

    #[inline(always)]
    fn step(self, c: Call, room: &mut [u8]) -> Stepped<Supervisor> {
        supervisor::step(self, c, room)
    }

    #[inline(always)]
    fn running(self) -> Result<u8, BadState> {
        supervisor::running(self)
    }
}

// Shaped as the impl above, and over the functions of the other engine.
impl Engine for Second {
    ghost ruled = { second };

    #[inline(always)]
    fn empty(clock: u32) -> Second {
        second::empty(clock)
    }

    #[inline(always)]
    fn step(self, c: Call, room: &mut [u8]) -> Stepped<Second> {
        second::step(self, c, room)
    }

    #[inline(always)]
    fn running(self) -> Result<u8, BadState> {
        second::running(self)
    }
}
