// The contact debouncer, its card in lent bytes: the supervisor's bytes, then five for each contact.
ghost use Rattle.std.specs.Prelude.{◌<◌, ◌≤◌, ◌≡◌, length};
ghost use Rattle.codec.specs.Layout.{state_size, put_at};
ghost use Rattle.debounce.specs.Card.{tick_of};
ghost use Rattle.debounce.specs.Settings.{fresh_of};
ghost use Rattle.card.specs.Answers.{if_room, one_after};
ghost use Rattle.card.specs.Contacts.{card_size, contact_bytes, contacts_bytes, stored_card, contact_from, contact_at, contacts_from, card_in, card_after};

use super::{flag, put_one};
use calls::numbers::SHORT_ROOM;
use codec::{STATE_SIZE, put_at, state_in, store};
use debounce::{Card, Contact};

// The bytes of a contact, and of a card.
const CONTACT_SIZE: usize = 5;

const CARD_SIZE: usize = STATE_SIZE + 8 * CONTACT_SIZE;

// The five bytes of a contact.
fn contact_bytes(c: Contact) -> [u8; 5]
    ensures { result ≡ contact_bytes c }
{
    let [high, low] = c.p.to_be_bytes();
    [c.n, high, low, flag(c.closed), c.against]
}

// The contact of five bytes; no contact where closed is neither 0 nor 1.
fn contact_from(n: u8, high: u8, low: u8, closed: u8, against: u8) -> Contact
    ensures { result ≡ contact_from n high low closed against }
{
    if closed <= 1 {
        return Contact {
            n,
            p: u16::from_be_bytes([high, low]),
            closed: closed == 1,
            against,
        };
    }
    Contact::default()
}

// The contact at index i; no contact where the bytes are too few.
fn contact_at(b: &[u8], i: usize) -> Contact
    requires { i < 8 }
    ensures { result ≡ contact_at b.now i }
{
    let at = STATE_SIZE + i * CONTACT_SIZE;
    let end = at + CONTACT_SIZE;
    if end <= b.len() {
        return contact_from(b[at], b[at + 1], b[at + 2], b[at + 3], b[at + 4]);
    }
    Contact::default() // too few bytes
}

// The contacts of lent bytes.
fn contacts_in(b: &[u8]) -> [Contact; 8]
    ensures { result ≡ contacts_from 8 0 b.now }
{
    std::array::from_fn(|i| contact_at(b, i))
}

// The card of lent bytes; one that is damaged where they are no card.
fn card_in(b: &[u8]) -> Card
    ensures { result ≡ card_in b.now }
{
    let supervisor = state_in(b);
    let contacts = contacts_in(b);
    Card {
        supervisor,
        contacts,
    }
}

// Puts the contacts behind the supervisor.
fn put_contacts(room: &mut [u8], cs: [Contact; 8])
    requires { card_size ≤ length room.old }
    ensures { room.new ≡ put_at room.old state_size (contacts_bytes cs) }
{
    for (i, &c) in cs.iter().enumerate() {
        put_at(room, STATE_SIZE + i * CONTACT_SIZE, &contact_bytes(c));
    }
}

// Puts a card into lent bytes, if they are long enough.
fn store_card(c: Card, room: &mut [u8])
    ensures { room.new ≡ stored_card c room.old }
{
    if room.len() < CARD_SIZE {
        return;
    }
    let s = c.supervisor;
    store(s, room);
    let cs = c.contacts;
    put_contacts(room, cs);
}

// Puts a card into lent bytes, unless it is refused.
fn keep(refusal: u8, c: Card, room: &mut [u8])
    ensures { room.new ≡ card_after room.old refusal c }
{
    if refusal == 0 {
        store_card(c, room);
    }
}

// Makes a card of 48 bytes of settings.
pub fn debounce_fresh(card: &mut [u8], settings: &[u8]) -> u8
    ensures value { result ≡ if_room card_size card.old 1 (fresh_of settings.now).refusal }
    ensures card_after { card.new ≡ card_after card.old (fresh_of settings.now).refusal (fresh_of settings.now).card }
{
    if card.len() < CARD_SIZE {
        return SHORT_ROOM;
    }
    let made = debounce::fresh(settings);
    keep(made.refusal, made.card, card);
    made.refusal
}

// One tick with the raw bits: the report is one byte, bit k - 1 for contact k, 1 for closed.
pub fn debounce_tick(card: &mut [u8], bits: u8, report: &mut [u8]) -> u8
    ensures value { result ≡ if_room 1 report.old 1 (tick_of (card_in card.old) bits).refusal }
    ensures card_after { card.new ≡ if_room 1 report.old card.old (card_after card.old (tick_of (card_in card.old) bits).refusal (tick_of (card_in card.old) bits).card) }
    ensures report_after { report.new ≡ one_after report.old (tick_of (card_in card.old) bits).reported }
{
    if report.len() < 1 {
        return SHORT_ROOM;
    }
    let c = card_in(card);
    let ticked = debounce::tick(c, bits);
    keep(ticked.refusal, ticked.card, card);
    put_one(report, ticked.refusal, ticked.reported)
}
