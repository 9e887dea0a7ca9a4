// The numbers of the refusals of the writer and of the reader. They are constants, since C and Ada have them under these names.
ghost use Rattle.std.specs.Prelude.{◌≡◌, Err};
ghost use Rattle.calls.specs.Reading.{number_of};
ghost use Rattle.calls.specs.Writing.{write_refusal_of};

use super::{ReadError, ShortRoom};

pub const SHORT_ROOM: u8 = 1;

pub const BAD_RECORD: u8 = 11;

pub const END_OF_LOG: u8 = 12;

impl From<ReadError> for u8 {
    ghost from_gives = { λ error n. n ≡ number_of error };

    fn from(error: ReadError) -> u8 {
        match error {
            ReadError::BadRecord => BAD_RECORD,
            ReadError::EndOfLog => END_OF_LOG,
        }
    }
}

impl From<ShortRoom> for u8 {
    ghost from_gives = { λ error n. n ≡ write_refusal_of (Err error) };

    fn from(_error: ShortRoom) -> u8 {
        SHORT_ROOM
    }
}
