// The supervisor's steps: the start of eight tasks, and a tick with the turns of those whose time comes.
ghost use Rattle.std.specs.Prelude.{◌≡◌, ◌-◌, ◌<◌, ◌≤◌, ◌&&◌, pos, nat_le, nat_lt};
ghost use Rattle.calls.specs.declared.Call.TheVariants.{Delay};
ghost use Rattle.rules.specs.Whole.{stepped_of};
ghost use Rattle.debounce.specs.Card.{takes, no_tasks, start_one, start_all, turn_of, all_served, ticked_card};

use super::contacts::{is_closed_in, with_sample};
use super::{Card, Contact};
use calls::Call;
use rules::{Stepped, Supervisor};

// The bytes of room that a step asks for.
const ROOM: usize = 124;

// What a turn gives: the card, and who runs then.
#[derive(Clone, Copy)]
pub struct Turned {
    pub card: Card,
    pub next: u8,
}

// One call, with a room of its own.
fn stepped(s: Supervisor, call: Call) -> Stepped<Supervisor>
    ensures { result ≡ stepped_of (takes s call) }
{
    let mut room = [0u8; ROOM];
    supervisor::step(s, call, &mut room)
}

// DELAY p by the running task.
fn delayed(s: Supervisor, p: u16) -> Stepped<Supervisor>
    ensures { result ≡ stepped_of (takes s (Delay (pos p))) }
{
    stepped(s, Call::Delay(i32::from(p)))
}

// One more task, which delays p ticks.
fn started_one(s: Supervisor, p: u16) -> Supervisor
    ensures { result ≡ start_one s p }
{
    let made = stepped(
        s,
        Call::Create {
            priority: 1,
            entries: 0,
        },
    );
    let ready = made.state;
    let out = delayed(ready, p);
    out.state
}

// A supervisor with no tasks.
pub fn no_tasks() -> Supervisor
    ensures { result ≡ no_tasks }
{
    supervisor::empty(0)
}

// A task for each contact.
pub fn started(cs: [Contact; 8]) -> Supervisor
    ensures { result ≡ start_all no_tasks cs }
{
    let mut s = no_tasks();
    for c in &cs {
        s = started_one(s, c.p);
    }
    s
}

// The turn of the running task t: it samples contact t, and delays again.
fn turn(card: Card, t: u8, bits: u8) -> Turned
    requires { (0 < t) × (t ≤ 8) }
    ensures { result ≡ turn_of card t bits }
{
    let at = (t - 1) as usize;
    let mut cs = card.contacts;
    let k = cs[at];
    let x = is_closed_in(bits, t);
    cs[at] = with_sample(k, x);
    let s = card.supervisor;
    let out = delayed(s, k.p);
    let after = out.state;
    let answer = out.answer;
    Turned {
        card: Card {
            supervisor: after,
            contacts: cs,
        },
        next: answer.next,
    }
}

// Whether task t serves a contact.
fn is_contact(t: u8) -> bool
    ensures { result ≡ (nat_lt 0 t && nat_le t 8) }
{
    (1..=8).contains(&t)
}

// Turn by turn, until nobody runs.
fn served(card: Card, next: u8, bits: u8) -> Card
    ensures { result ≡ all_served card next bits }
{
    let mut now = card;
    let mut t = next;
    for _turn in 0..8u8 {
        if !is_contact(t) {
            return now;
        }
        let k = turn(now, t, bits);
        now = k.card;
        t = k.next;
    }
    now
}

// A tick of a card that is not damaged.
pub fn ticked(card: Card, bits: u8) -> Card
    ensures { result ≡ ticked_card card bits }
{
    let s = card.supervisor;
    let out = stepped(s, Call::Tick);
    let after = out.state;
    let answer = out.answer;
    let contacts = card.contacts;
    let woken = Card {
        supervisor: after,
        contacts,
    };
    served(woken, answer.next, bits)
}
