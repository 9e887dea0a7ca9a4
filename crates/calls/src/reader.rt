// The reader of call records.
ghost use Rattle.std.specs.Prelude.{◌≡◌, true, false, ◌+◌, ◌≤◌, length};
ghost use Rattle.calls.specs.Record.{byte, four_from, length_of, is_unknown};
ghost use Rattle.calls.specs.Reading.{call_mode_of, select_mode_of, call_in, read_of, refusal_of, count_of, refusal_for, count_for};
ghost use Rattle.calls.specs.Parts.{bad_frame, bad_mode, bad_body};

use super::durations::word;
use super::{Call, CallMode, ReadError, Record, SelectMode};

// The four bytes of s from index i.
fn four_from(s: &[u8], i: usize) -> u32
    requires { i + 4 ≤ length s.now }
    ensures { result ≡ four_from s.now i }
{
    word(s[i], s[i + 1], s[i + 2], s[i + 3])
}

fn is_unknown(tag: u8) -> bool
    ensures { result ≡ is_unknown tag }
{
    !(1..=8).contains(&tag)
}

// The length that belongs to a tag.
fn length_of(tag: u8) -> usize
    ensures { result ≡ length_of tag }
{
    match tag {
        1 => 2,
        2 => 4,
        3 => 7,
        4 => 6,
        8 => 4,
        _ => 0,
    }
}

// Whether tag, length and number of bytes are not those of a record.
#[tactic(auto, unfolding(crate::specs::Parts::bad_frame))]
fn bad_frame(s: &[u8]) -> bool
    ensures { result ≡ bad_frame s.now }
{
    if s.len() < 3 {
        return true;
    }
    let tag = s[0];
    let n = length_of(tag);
    let said = u16::from_be_bytes([s[1], s[2]]) as usize;
    is_unknown(tag) | (said != n) | (s.len() - 3 < n)
}

// Whether the mode at an index and the duration behind it make no mode.
fn bad_mode(s: &[u8], i: usize) -> bool
    requires { i + 5 ≤ length s.now }
    ensures { result ≡ bad_mode (byte s.now i) (four_from s.now (i + 1)) }
{
    let m = s[i];
    let d = four_from(s, i + 1);
    (2 < m) | ((m != 1) & (d != 0))
}

// Whether a record whose frame is right has a mode that is none.
fn bad_body(s: &[u8], tag: u8) -> bool
    requires { 3 + length_of tag ≤ length s.now }
    ensures { result ≡ bad_body tag s.now }
{
    match tag {
        3 => bad_mode(s, 5),
        4 => bad_mode(s, 4),
        _ => false,
    }
}

fn call_mode(m: u8, d: u32) -> CallMode
    ensures { result ≡ call_mode_of m d }
{
    match m {
        0 => CallMode::Simple,
        1 => CallMode::Timed(d.cast_signed()),
        _ => CallMode::Conditional,
    }
}

// Beside `call_mode`, since the modes have other names.
fn select_mode(m: u8, d: u32) -> SelectMode
    ensures { result ≡ select_mode_of m d }
{
    match m {
        0 => SelectMode::Plain,
        1 => SelectMode::Delay(d.cast_signed()),
        _ => SelectMode::Else,
    }
}

// The call of a record without a fault. There is no tag above 8: the frame would be wrong.
fn call_in(s: &[u8], tag: u8) -> Call
    requires tag_value { is_unknown tag ≡ false }
    requires tag_in_bounds { 3 + length_of tag ≤ length s.now }
    ensures { result ≡ call_in tag s.now }
{
    match tag {
        1 => Call::Create {
            priority: s[3],
            entries: s[4],
        },
        2 => Call::Delay(four_from(s, 3).cast_signed()),
        3 => Call::Call {
            target: s[3],
            entry: s[4],
            mode: call_mode(s[5], four_from(s, 6)),
        },
        4 => Call::Select {
            open: s[3],
            mode: select_mode(s[4], four_from(s, 5)),
        },
        5 => Call::End,
        6 => Call::Finish,
        7 => Call::Tick,
        _ => Call::Advance(four_from(s, 3)),
    }
}

// The record at the start of s. Bytes behind it are not looked at.
pub fn read_record(s: &[u8]) -> Result<Record, ReadError>
    ensures value { result ≡ read_of s.now }
    ensures result_value { (refusal_of result ≡ refusal_for s.now) × (count_of result ≡ count_for s.now) }
{
    if s.is_empty() {
        return Err(ReadError::EndOfLog);
    }
    if bad_frame(s) {
        return Err(ReadError::BadRecord);
    }
    let tag = s[0];
    if bad_body(s, tag) {
        return Err(ReadError::BadRecord);
    }
    Ok(Record {
        call: call_in(s, tag),
        count: 3 + length_of(tag),
    })
}
