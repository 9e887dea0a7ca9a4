// Text in lent room: bytes and decimal numbers, each put from a place on, with the place behind it as the answer.
// Room that is too short cuts the text off: no byte behind the room, and no refusal.
// Room and place are two parameters and no struct: programs keep the place from turn to turn apart from the room (`Flow`, stream), so a struct would be
// made and taken apart around each call, and each contract would speak of a loan inside it.
#![tactic(auto)]

ghost use Rattle.std.specs.Prelude.{min, ◌≡◌, ◌≤◌, [], ◌∷◌, drop};
ghost use Rattle.text.specs.Text.{Put, decimal};

// One byte.
pub fn put_byte(b: u8, out: &mut [u8], at: usize) -> usize
    ensures { Put out.old at (b ∷ []) out.new result }
{
    if at < out.len() {
        out[at] = b;
        return at + 1;
    }
    out.len()
}

// The smaller of two numbers.
pub fn least(a: usize, b: usize) -> usize
    ensures { result ≡ min a b }
{
    a.min(b)
}

// All bytes of a text.
pub fn put_bytes(text: &[u8], out: &mut [u8], at: usize) -> usize
    ensures { Put out.old at text.now out.new result }
{
    let mut place = least(at, out.len());
    for &b in text {
        place = put_byte(b, out, place);
    }
    place
}

// The digits of a number in decimal, at the end of a row; the answer is the place of the first, so the loop goes over places.
fn digits(n: u64, row: &mut [u8; 20]) -> usize
    ensures within { result ≤ 20 }
    ensures value { drop result row.new ≡ decimal n }
{
    let mut rest = n;
    for i in (0..row.len()).rev() {
        if rest < 10 {
            row[i] = b'0' + rest as u8; // the first digit: most numbers have no other, and are not divided
            return i;
        }
        row[i] = b'0' + (rest % 10) as u8;
        rest /= 10;
    }
    unreachable!() // 20 digits hold every number of 64 bits
}

// A number in decimal.
pub fn put_number(n: u64, out: &mut [u8], at: usize) -> usize
    ensures { Put out.old at (decimal n) out.new result }
{
    let mut row = [0u8; 20];
    let from = digits(n, &mut row);
    put_bytes(&row[from..], out, at)
}
