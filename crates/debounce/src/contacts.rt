// A contact: its samples and its report.
ghost use Rattle.std.specs.Prelude.{◌≡◌, ◌-◌, ◌<◌, ◌≤◌, map};
ghost use Rattle.debounce.specs.Rule.{closed_in, byte_of};
ghost use Rattle.debounce.specs.Card.{told, sampled, is_closed};

use super::Contact;

// Contact k's bit of a byte: bit k - 1, 1 for closed.
pub fn is_closed_in(bits: u8, k: u8) -> bool
    requires { (0 < k) × (k ≤ 8) }
    ensures { result ≡ closed_in bits k }
{
    (bits >> (k - 1)) % 2 == 1
}

// The contact with another report, and another number of samples against it.
fn with_report(c: Contact, closed: bool, against: u8) -> Contact
    ensures { result ≡ told c closed against }
{
    Contact {
        closed,
        against,
        ..c
    }
}

// The contact with one more sample.
pub fn with_sample(c: Contact, x: bool) -> Contact
    ensures { result ≡ sampled c x }
{
    if x != c.closed {
        if u16::from(c.against) + 1 < u16::from(c.n) {
            return with_report(c, c.closed, c.against + 1);
        }
        return with_report(c, x, 0);
    }
    with_report(c, c.closed, 0)
}

// The report: bit k - 1 for contact k, 1 for closed.
pub fn report_of(cs: [Contact; 8]) -> u8
    ensures { result ≡ byte_of (map is_closed cs) }
{
    let mut r: u8 = 0;
    for c in cs.iter().rev() {
        r = r * 2 + u8::from(c.closed);
    }
    r
}
