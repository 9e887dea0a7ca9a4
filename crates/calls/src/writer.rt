// The writer of call records.
ghost use Rattle.std.specs.Prelude.{◌≡◌, ◌∷◌};
ghost use Rattle.calls.specs.Duration.{bytes_of};
ghost use Rattle.calls.specs.Record.{encode};
ghost use Rattle.calls.specs.Writing.{written_of, room_written};

use super::durations::bytes_of;
use super::modes::Mode;
use super::{Call, ShortRoom};

// Puts bytes at the start of room, or nothing where room is too short.
fn put(bytes: &[u8], room: &mut [u8]) -> Result<usize, ShortRoom>
    ensures value { result ≡ written_of bytes.now room.old }
    ensures room_after { room.new ≡ room_written bytes.now room.old }
{
    let n = bytes.len();
    if room.len() < n {
        return Err(ShortRoom);
    }
    room[..n].copy_from_slice(bytes);
    Ok(n)
}

// Puts a record whose only field is a number of four bytes.
fn put_number(tag: u8, n: u32, room: &mut [u8]) -> Result<usize, ShortRoom>
    ensures value { result ≡ written_of (tag ∷ 0 ∷ 4 ∷ bytes_of n) room.old }
    ensures room_after { room.new ≡ room_written (tag ∷ 0 ∷ 4 ∷ bytes_of n) room.old }
{
    let [a, b, c, d] = bytes_of(n);
    put(&[tag, 0, 4, a, b, c, d], room)
}

// Writes the record of c at the start of room.
pub fn write_record(c: Call, room: &mut [u8]) -> Result<usize, ShortRoom>
    ensures value { result ≡ written_of (encode c) room.old }
    ensures room_after { room.new ≡ room_written (encode c) room.old }
{
    match c {
        Call::Create { priority, entries } => put(&[1, 0, 2, priority, entries], room),
        Call::Delay(d) => put_number(2, d.cast_unsigned(), room),
        Call::Call {
            target,
            entry,
            mode,
        } => {
            let m = Mode::from(mode);
            let [a, b, c, d] = bytes_of(m.time.cast_unsigned());
            put(&[3, 0, 7, target, entry, m.number, a, b, c, d], room)
        }
        Call::Select { open, mode } => {
            let m = Mode::from(mode);
            let [a, b, c, d] = bytes_of(m.time.cast_unsigned());
            put(&[4, 0, 6, open, m.number, a, b, c, d], room)
        }
        Call::End => put(&[5, 0, 0], room),
        Call::Finish => put(&[6, 0, 0], room),
        Call::Tick => put(&[7, 0, 0], room),
        Call::Advance(n) => put_number(8, n, room),
    }
}
