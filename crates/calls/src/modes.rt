// Modes as a record has them.
ghost use Rattle.std.specs.Prelude.{◌≡◌};
ghost use Rattle.calls.specs.Record.{call_mode, call_time, select_mode, select_time};

use super::{CallMode, SelectMode};

// The number of a mode, and its duration, 0 where it has none: what stands in a record's bytes, which C and Ada write too.
#[derive(Clone, Copy)]
pub struct Mode {
    pub number: u8,
    pub time: i32,
}

impl From<CallMode> for Mode {
    ghost from_gives = { λ mode m. m ≡ record { number = call_mode mode; time = call_time mode } };

    fn from(mode: CallMode) -> Mode {
        match mode {
            CallMode::Simple => Mode { number: 0, time: 0 },
            CallMode::Timed(d) => Mode { number: 1, time: d },
            CallMode::Conditional => Mode { number: 2, time: 0 },
        }
    }
}

// Beside that of a CALL, since the modes have other names.
impl From<SelectMode> for Mode {
    ghost from_gives = { λ mode m. m ≡ record { number = select_mode mode; time = select_time mode } };

    fn from(mode: SelectMode) -> Mode {
        match mode {
            SelectMode::Plain => Mode { number: 0, time: 0 },
            SelectMode::Delay(d) => Mode { number: 1, time: d },
            SelectMode::Else => Mode { number: 2, time: 0 },
        }
    }
}
