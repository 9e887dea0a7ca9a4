// A guess at the call that words look like. It is right where they are the text of a call, and may be anything where they are not: the reader
// prints it and compares.
ghost use Rattle.std.specs.Prelude.{◌≡◌, ◌%◌};
ghost use Rattle.script.specs.Guess.{bit_of, grown_of, added_of, heard_of, hear, unseen, time_of, guess_by};

use calls::{Call, CallMode, SelectMode};

// The bit of an entry's digit in an open set: a table, as the definition `bit_of` is one.
const BITS: [u8; 16] = [0, 1, 2, 4, 8, 16, 32, 64, 128, 0, 0, 0, 0, 0, 0, 0];

// What a word is by its digits: a byte, an open set, and a number of 32 bits.
#[derive(Clone, Copy, Default)]
pub struct Word {
    pub byte: u8,
    pub set: u8,
    pub number: u32,
}

// What is seen of a line: the sum of its letters, whether there is a minus, and its four last words: of the fourth, the third and the second
// the byte, of the third and the second the open set too (`far` and `near`), and the last.
#[derive(Clone, Copy, Default)]
pub struct Seen {
    pub letters: u64,
    pub minus: bool,
    pub fourth: u8,
    pub third: u8,
    pub far: u8,
    pub second: u8,
    pub near: u8,
    pub last: Word,
}

fn bit_of(d: u8) -> u8
    ensures { result ≡ bit_of (d % 16) }
{
    let i = (d % 16) as usize;
    BITS[i]
}

// A word with one byte more.
fn grown(w: Word, b: u8) -> Word
    ensures { result ≡ grown_of w b }
{
    if !b.is_ascii_digit() {
        return w;
    }
    let d = b % 16;
    Word {
        byte: w.byte.wrapping_mul(10).wrapping_add(d),
        set: w.set.wrapping_add(bit_of(d)),
        number: w.number.wrapping_mul(10).wrapping_add(u32::from(d)),
    }
}

// The sum of the letters with one byte more.
fn added(n: u64, b: u8) -> u64
    ensures { result ≡ added_of n b }
{
    if 64 < b { n % 65536 + b as u64 } else { n }
}

// What is seen with one byte more. A blank begins a word.
fn heard(s: Seen, b: u8) -> Seen
    ensures { result ≡ heard_of s b }
{
    if b == b' ' {
        Seen {
            fourth: s.third,
            third: s.second,
            far: s.near,
            second: s.last.byte,
            near: s.last.set,
            last: Word::default(),
            ..s
        }
    } else {
        Seen {
            letters: added(s.letters, b),
            minus: (b == b'-') | s.minus,
            last: grown(s.last, b),
            ..s
        }
    }
}

// What is seen of words.
pub fn seen_in(words: &[u8]) -> Seen
    ensures { result ≡ hear unseen words.now }
{
    let mut s = Seen::default();
    for &b in words {
        s = heard(s, b);
    }
    s
}

// A number with or without a minus, as a duration.
fn time_of(minus: bool, n: u32) -> i32
    ensures { result ≡ time_of minus n }
{
    if minus {
        !(((n as u64 + 2147483647) % 2147483648) as i32)
    } else {
        (n % 2147483648) as i32
    }
}

// The call that what is seen looks like. Each form of a call has a sum of letters of its own; `none` counts for nothing, since the sum of its
// letters is 432.
pub fn guess_by(s: Seen) -> Call
    ensures { result ≡ guess_by s }
{
    let letters = s.letters % 432;
    let time = time_of(s.minus, s.last.number);
    match letters {
        4 => Call::Create {
            priority: s.second,
            entries: s.last.byte,
        },
        367 => Call::Delay(time),
        284 => Call::Call {
            target: s.second,
            entry: s.last.byte,
            mode: CallMode::Simple,
        },
        383 => Call::Call {
            target: s.fourth,
            entry: s.third,
            mode: CallMode::Timed(time),
        },
        160 => Call::Call {
            target: s.third,
            entry: s.second,
            mode: CallMode::Conditional,
        },
        215 => Call::End,
        17 => Call::Finish,
        299 => Call::Tick,
        16 => Call::Select {
            open: s.last.set,
            mode: SelectMode::Plain,
        },
        111 => Call::Select {
            open: s.far,
            mode: SelectMode::Delay(time),
        },
        9 => Call::Select {
            open: s.near,
            mode: SelectMode::Else,
        },
        _ => Call::Advance(s.last.number),
    }
}
