// What is told of a line that cannot be read: the form that its first two letters ask for.
use stream::errors::tell_line;

// The place of the first byte of a line that is no blank.
fn start_of(line: &[u8]) -> usize {
    line.iter().position(|&b| b' ' < b).unwrap_or(line.len())
}

// The letter at a place in lower case, or 0.
fn letter_at(line: &[u8], i: usize) -> u8 {
    line.get(i).map_or(0, |b| b | 32)
}

// The form of a call by its first two letters, and else which calls there are.
fn form_of(letters: [u8; 2]) -> &'static [u8] {
    match &letters {
        b"cr" => b"CREATE 5 1, two numbers from 0 to 255",
        b"de" => b"DELAY 3, a number from -2147483648 to 2147483647",
        b"ca" => b"CALL 1 1, two numbers from 0 to 255, then nothing, timed 3 or conditional",
        b"se" => b"SELECT 1,3, entries 1 to 8 in order, or none, then nothing, delay 5 or else",
        b"ad" => b"ADVANCE 1000, a number from 0 to 4294967295",
        _ => b"CREATE, DELAY, CALL, SELECT, END, FINISH, TICK or ADVANCE",
    }
}

// A line that cannot be read. Its first two letters tell which form is expected.
pub fn unread<R: Eprint>(rt: &R, number: u64, line: &[u8]) {
    let i = start_of(line);
    let next = i.wrapping_add(1);
    tell_line(
        rt,
        number,
        form_of([letter_at(line, i), letter_at(line, next)]),
    );
}

// Arguments that are none of the two.
pub fn usage<R: Eprint>(rt: &R) {
    let _ = eprintln!(rt; "usage: scribe < TEXT > CALLS, or scribe back < CALLS > TEXT");
}
