// The reader of lines: the words of a line, the call that they look like, and whether that call's text is what they are.
ghost use Rattle.std.specs.Prelude.{◌≡◌};
ghost use Rattle.script.specs.Rows.{text_in, cut, Grown};
ghost use Rattle.script.specs.Words.{is_blank, part_of, words_of};
ghost use Rattle.script.specs.Says.{Says};

use crate::Line;
use crate::guess::{guess_by, seen_in};
use crate::print::with_call;
use crate::row::Row;

// What stands between words: a blank, a tab, the carriage return of a line end.
fn is_blank(b: u8) -> bool
    ensures { result ≡ is_blank b }
{
    matches!(b, b' ' | b'\t' | b'\r')
}

// What a byte of a line adds to its words.
fn with_part(row: Row, inside: bool, b: u8) -> Row
    ensures { Grown row (part_of inside b) result }
{
    if is_blank(b) {
        return row;
    }
    if inside {
        return row.with_byte(b);
    }
    row.with_byte(b' ').with_byte(b)
}

// The words of a line, with one blank in front of each.
fn words_of(line: &[u8]) -> Row
    ensures { text_in result ≡ cut (words_of line.now) }
{
    let mut words = Row::empty();
    let mut inside = false;
    for &b in line {
        if b == b'#' {
            return words;
        }
        words = with_part(words, inside, b);
        inside = !is_blank(b);
    }
    words
}

// What a line says: the call that its words look like, where that call's text is what they are. No text of a call has 63 bytes, so words that
// fill the row are none.
pub fn read_line(line: &[u8]) -> Line
    ensures { Says (words_of line.now) result }
{
    let words = words_of(line);
    let n = words.place;
    if 64 <= n {
        return Line::Unread;
    }
    if n == 0 {
        return Line::Nothing;
    }
    let call = guess_by(seen_in(words.text()));
    let row = with_call(Row::empty().with_byte(b' '), call);
    if words.text() == row.text() {
        return Line::Says(call);
    }
    Line::Unread
}
