// Calls as lines of text, in the words of document 01: a call's text, and the call that a line says.
#![tactic(auto)]

mod guess;
pub mod print;
pub mod reader;
mod row;

use calls::Call;
pub use print::{put_call, put_record};
pub use reader::read_line;

// What a line says: nothing (it is empty, or a comment), a call, or what cannot be read.
// No Result of an Option: `Says` and `record_of` (specs/Says.antt) speak of these three cases, which who reads a line matches all.
#[derive(Clone, Copy)]
pub enum Line {
    Nothing,
    Says(Call),
    Unread,
}
