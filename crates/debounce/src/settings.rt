// The settings: a field for each contact, laid out like a call record.
ghost use Rattle.std.specs.Prelude.{◌≡◌, ◌+◌, ◌*◌, ◌≤◌, map, length};
ghost use Rattle.debounce.specs.Card.{opened};
ghost use Rattle.debounce.specs.Settings.{two, setting_at, good_field, good_settings, settings_in};

use super::Contact;
use super::check::is_setting;

// Two bytes as a number, the high byte first.
fn word(a: u8, b: u8) -> u16
    ensures { result ≡ two a b }
{
    u16::from_be_bytes([a, b])
}

// Whether the field at index i is that of contact i + 1: its tag, the length 3, and a setting in range.
fn is_field(b: &[u8], i: usize) -> bool
    requires { i * 6 + 6 ≤ length b.now }
    ensures { result ≡ good_field b.now i }
{
    let at = i * 6;
    let p = word(b[at + 4], b[at + 5]);
    (usize::from(b[at]) == i + 1) & (b[at + 1] == 0) & (b[at + 2] == 3) & is_setting(b[at + 3], p)
}

// Whether the bytes are eight fields, and nothing behind. The loop has the index, since a field's tag is one more.
pub fn is_good(b: &[u8]) -> bool
    ensures { result ≡ good_settings b.now }
{
    if b.len() != 48 {
        return false;
    }
    for i in 0..8 {
        if !is_field(b, i) {
            return false;
        }
    }
    true
}

// The contact of the field at index i, at the start.
fn contact_at(b: &[u8], i: usize) -> Contact
    requires { i * 6 + 6 ≤ length b.now }
    ensures { result ≡ opened (setting_at b.now i) }
{
    let at = i * 6;
    Contact {
        n: b[at + 3],
        p: word(b[at + 4], b[at + 5]),
        closed: false,
        against: 0,
    }
}

// The contacts of good settings, at the start. `card` has a line like it, over the bytes of a card.
pub fn contacts_in(b: &[u8]) -> [Contact; 8]
    requires { length b.now ≡ 48 }
    ensures { result ≡ map opened (settings_in b.now) }
{
    std::array::from_fn(|i| contact_at(b, i))
}
