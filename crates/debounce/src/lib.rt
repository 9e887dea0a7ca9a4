// The contact debouncer: eight contacts, each served by a task of the supervisor.
#![tactic(auto)]

mod check;
mod contacts;
mod settings;
mod turns;

ghost use Rattle.std.specs.Prelude.{◌≡◌};
ghost use Rattle.debounce.specs.Card.{tick_of};
ghost use Rattle.debounce.specs.Settings.{fresh_of, no_card};

use check::is_whole;
use contacts::report_of;
use rules::{Refusal, Supervisor};
use settings::{contacts_in, is_good};
use turns::{no_tasks, started, ticked};

// The refusal of settings: a constant, since C and Ada have it under this name.
pub const BAD_SETTING: u8 = 17;

// A contact: its setting (n samples must agree, p ticks lie between two samples), whether it is reported closed, and how many of its
// latest samples in a row say otherwise. The default is a contact that is not there.
#[derive(Clone, Copy, Default)]
pub struct Contact {
    pub n: u8,
    pub p: u16,
    pub closed: bool,
    pub against: u8,
}

// The input card: the supervisor, in which task k serves contact k, and the contacts.
#[derive(Clone, Copy)]
pub struct Card {
    pub supervisor: Supervisor,
    pub contacts: [Contact; 8],
}

// What making a card gives: a refusal (0 if none), and the card; where the settings are refused no card is made, and the blank one stands
// in its place, which every tick refuses. No `Result`, here and of a tick: the theorems `bad_setting` and `damaged` tell of that card, too.
#[derive(Clone, Copy)]
pub struct Made {
    pub refusal: u8,
    pub card: Card,
}

// What a tick gives: the card, a refusal (0 if none), and the report: bit k - 1 for contact k, 1 for closed.
#[derive(Clone, Copy)]
pub struct Ticked {
    pub card: Card,
    pub refusal: u8,
    pub reported: u8,
}

// No card: one without tasks.
fn blank_card() -> Card
    ensures { result ≡ no_card }
{
    let supervisor = no_tasks();
    let contacts = [Contact::default(); 8];
    Card {
        supervisor,
        contacts,
    }
}

// A fresh card: every contact is open, and its task delays p ticks.
pub fn fresh(settings: &[u8]) -> Made
    ensures { result ≡ fresh_of settings.now }
{
    if is_good(settings) {
        let contacts = contacts_in(settings);
        let supervisor = started(contacts);
        let card = Card {
            supervisor,
            contacts,
        };
        return Made { refusal: 0, card };
    }
    let card = blank_card();
    Made {
        refusal: BAD_SETTING,
        card,
    }
}

// One tick, with the raw bits of the contacts: those whose task is due are sampled.
pub fn tick(card: Card, bits: u8) -> Ticked
    ensures { result ≡ tick_of card bits }
{
    if is_whole(card) {
        let after = ticked(card, bits);
        let cs = after.contacts;
        let reported = report_of(cs);
        return Ticked {
            card: after,
            refusal: 0,
            reported,
        };
    }
    Ticked {
        card,
        refusal: Refusal::BadState as u8,
        reported: 0,
    }
}
