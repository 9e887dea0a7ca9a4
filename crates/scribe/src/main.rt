// Calls as text to records, and records back to text: `scribe` and `scribe back`, from standard input to standard output.
// What cannot be read is told on standard error with the number of its line or record, and so is output that cannot be written.
#![tactic(auto)]

mod back; // back.rt: records to text
mod errors; // errors.rt: what is told of a line
mod forth; // forth.rt: text to records

use stream::words::{arg, arg_count};

fn main(rt: HostRuntime) {
    let mut buf = [0u8; 65536];
    let mut out = [0u8; 65536];
    let mut word = [0u8; 5];
    let count = arg_count(&rt, 3);
    let n = arg(&rt, 1, &mut word);
    if (count == 2) & matches!(&word[..n], b"back") {
        back::run(&rt, &mut buf, &mut out);
        return;
    }
    if 1 < count {
        errors::usage(&rt);
        return;
    }
    forth::run(&rt, &mut buf, &mut out);
}
