// A line of the output is put together.
use text::{put_byte, put_bytes, put_number};
use workspace::{Stretch, Tables, UNUSED};

// Puts the numbers, and a space behind each.
fn put_numbers(numbers: &[u64], out: &mut [u8], at: usize) -> usize {
    let mut place = at;
    for &n in numbers {
        place = put_number(n, out, place);
        place = put_byte(b' ', out, place);
    }
    place
}

// Puts place, start and length; nothing for an unused place.
fn put_place(i: usize, x: Stretch, out: &mut [u8], at: usize) -> usize {
    if x == UNUSED {
        return at;
    }
    let numbers = [i as u64, u64::from(x.start), u64::from(x.length)];
    put_numbers(&numbers, out, at)
}

// Puts a bar and each place of a table that is not unused.
fn put_table(a: [Stretch; 32], out: &mut [u8], at: usize) -> usize {
    let mut place = put_bytes(b"| ", out, at);
    for (i, &x) in a.iter().enumerate() {
        place = put_place(i, x, out, place);
    }
    place
}

// Puts the refusal, the value, the places used and both tables, and answers the place behind them.
pub(crate) fn put_line(t: Tables, out: &mut [u8], at: usize) -> usize {
    let answer = t.answer;
    let used = answer.used;
    let numbers = [
        u64::from(answer.refusal),
        u64::from(answer.value),
        used.blocks as u64,
        used.free as u64,
    ];
    let blocks = t.blocks;
    let free = t.free;
    let a = put_numbers(&numbers, out, at);
    let b = put_table(blocks, out, a);
    let c = put_table(free, out, b);
    put_byte(b'\n', out, c)
}
