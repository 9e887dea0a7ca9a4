// When a card is not damaged.
ghost use Rattle.std.specs.Prelude.{◌≡◌};
ghost use Rattle.rules.specs.State.{ticks_left};
ghost use Rattle.debounce.specs.Card.{good_setting, is_delayed, waits_for, all_wait, whole};

use super::{Card, Contact};
use rules::{Core, Place, Task, Timer};

// A setting in range: n is 1 to 16, and p is 1 to 65535.
pub fn is_setting(n: u8, p: u16) -> bool
    ensures { result ≡ good_setting n p }
{
    (1..=16).contains(&n) & (1..=65535).contains(&p)
}

// The ticks left of a time; 0 of none. The supervisor's own function stays its own: this crate rests on its steps alone.
fn left_of(now: u32, w: Timer) -> u32
    ensures { result ≡ ticks_left now w }
{
    match w {
        Timer::Off => 0,
        Timer::Due(d) => d.wrapping_sub(now),
    }
}

// Whether a task in this place delays.
fn is_delayed(p: Place) -> bool
    ensures { result ≡ is_delayed p }
{
    matches!(p, Place::Delayed)
}

// Whether a task delays with 1 to p ticks left, where the contact's setting is in range.
fn waits_for(now: u32, x: Task, c: Contact) -> bool
    ensures { result ≡ waits_for now x c }
{
    let timer = x.timer;
    let place = x.place;
    let left = left_of(now, timer);
    is_setting(c.n, c.p) & is_delayed(place) & (1 <= left) & (left <= u32::from(c.p))
}

// Whether each of eight tasks waits for its contact.
fn all_wait(s: Core, cs: [Contact; 8]) -> bool
    ensures { result ≡ all_wait s.clock s.tasks cs }
{
    let now = s.clock;
    s.tasks.iter().zip(&cs).all(|(x, c)| waits_for(now, *x, *c))
}

// Whether the card is not damaged.
pub fn is_whole(card: Card) -> bool
    ensures { result ≡ whole card }
{
    let s = card.supervisor;
    let core = s.core;
    let cs = card.contacts;
    supervisor::sound(s) & (core.created == 8) & all_wait(core, cs)
}
