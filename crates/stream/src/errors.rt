// What cannot be read is told on standard error. Each message is one write, so that those of two programs do not mix: the longest, with 20 digits of the
// number, has 131 bytes, and std gathers 1024.
use std::fmt;

// Bytes of ASCII text, to be printed.
#[derive(Drop)]
struct Ascii<'a>(&'a [u8]);

impl fmt::Display for Ascii<'_> {
    fn fmt<W: fmt::Write>(&self, f: &mut fmt::Formatter<W>) -> fmt::Result {
        for b in self.0 {
            f.write_char(char::from(*b))?;
        }
        Ok(())
    }
}

// A line that is in none of the forms that are expected.
pub fn tell_line<R: Eprint>(rt: &R, number: u64, form: &[u8]) {
    let form = Ascii(form);
    let _ = eprintln!(rt; "line {number}: cannot be read; expected is {form}");
}

// A line that fills a buffer of so many bytes, and goes on.
pub(crate) fn tell_long<R: Eprint>(rt: &R, number: u64, room: usize) {
    let _ = eprintln!(rt; "line {number}: cannot be read; it has no line end within {room} bytes");
}

// Bytes that are no record.
pub fn tell_record<R: Eprint>(rt: &R, number: u64) {
    let _ = eprintln!(rt; "record {number}: cannot be read; the bytes from here on are no record");
}
