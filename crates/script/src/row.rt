// Text by value: a row of 64 bytes, and the place behind the text in it. What does not fit is cut off.
ghost use Rattle.std.specs.Prelude.{◌≡◌, [], ◌∷◌};
ghost use Rattle.text.specs.Text.{decimal, spaced};

use text::{put_byte, put_bytes, put_number};

// There is no heap: the bytes stand in the row itself.
#[derive(Clone, Copy)]
pub struct Row {
    pub bytes: [u8; 64],
    pub place: usize,
}

impl Row {
    ghost use Rattle.script.specs.Rows.{text_in, Grown};

    // A row without text.
    pub fn empty() -> Row
        ensures { text_in result ≡ [] }
    {
        Row {
            bytes: [0; 64],
            place: 0,
        }
    }

    // Its text.
    pub fn text(&self) -> &[u8]
        ensures { result.now ≡ text_in self.now }
    {
        &self.bytes[..self.place.min(64)]
    }

    // The row with one byte more.
    pub fn with_byte(self, b: u8) -> Row
        ensures { Grown self (b ∷ []) result }
    {
        let mut bytes = self.bytes;
        let place = put_byte(b, &mut bytes, self.place);
        Row { bytes, place }
    }

    // The row with a text more.
    pub fn with_text(self, text: &[u8]) -> Row
        ensures { Grown self text.now result }
    {
        let mut bytes = self.bytes;
        let place = put_bytes(text, &mut bytes, self.place);
        Row { bytes, place }
    }

    // The row with a number more.
    pub fn with_number(self, n: u64) -> Row
        ensures { Grown self (decimal n) result }
    {
        let mut bytes = self.bytes;
        let place = put_number(n, &mut bytes, self.place);
        Row { bytes, place }
    }

    // The row with a blank and a number more.
    pub fn with_spaced(self, n: u64) -> Row
        ensures { Grown self (spaced n) result }
    {
        self.with_byte(b' ').with_number(n)
    }
}
