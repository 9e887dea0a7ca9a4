// A task's place and time, its numbers, and open sets: tests and fields.
ghost use Rattle.std.specs.Prelude.{◌≡◌, ◌^◌, ◌&&◌, nat_le, nat_lt};
ghost use Rattle.rules.specs.Sound.{in_range};
ghost use Rattle.rules.specs.State.{is_ready, is_queued, is_held, is_completed, partner_of, entry_of, kept_of, accepts, opens, has_time, ticks_left, higher};
ghost use Rattle.rules.specs.Step.{expiry};

use rules::{Place, StepResult, Timer};

// One that is delayed until its time comes is not ready.
pub fn is_ready(p: Place) -> bool
    ensures { result ≡ is_ready p }
{
    matches!(p, Place::Ready)
}

// One whose call is accepted is not queued.
pub fn is_queued(p: Place) -> bool
    ensures { result ≡ is_queued p }
{
    matches!(p, Place::Queued(_))
}

// One whose call is not accepted yet is not held.
pub fn is_held(p: Place) -> bool
    ensures { result ≡ is_held p }
{
    matches!(p, Place::Held(_))
}

// One that is not even created is not completed.
pub fn is_completed(p: Place) -> bool
    ensures { result ≡ is_completed p }
{
    matches!(p, Place::Completed)
}

pub fn partner_of(p: Place) -> u8
    ensures { result ≡ partner_of p }
{
    match p {
        Place::Queued(q) => q.target,
        Place::Held(m) => m.holder,
        _ => 0, // who calls nobody
    }
}

pub fn entry_of(p: Place) -> u8
    ensures { result ≡ entry_of p }
{
    match p {
        Place::Queued(q) => q.entry,
        Place::Held(m) => m.entry,
        _ => 0, // who calls no entry
    }
}

// What the current priority of the holder of a held caller was before.
pub fn kept_of(p: Place) -> u8
    ensures { result ≡ kept_of p }
{
    match p {
        Place::Held(m) => m.kept,
        _ => 0, // who is not held
    }
}

// How a wait in this place ends by time.
pub fn expiry_of(p: Place) -> u8
    ensures { result ≡ expiry p }
{
    match p {
        Place::Delayed => StepResult::Elapsed.into(),
        Place::Queued(_) => StepResult::CallExpired.into(),
        Place::Accepting(_) => StepResult::DelayTaken.into(),
        _ => 0,
    }
}

// With no time, no tick ends the wait.
pub fn has_time(w: Timer) -> bool
    ensures { result ≡ has_time w }
{
    matches!(w, Timer::Due(_))
}

// Ticks from now until the time, counted round the clock.
pub fn ticks_left(now: u32, w: Timer) -> u32
    ensures { result ≡ ticks_left now w }
{
    match w {
        Timer::Off => 0,
        Timer::Due(d) => d.wrapping_sub(now),
    }
}

// The higher of two priorities.
pub fn higher_of(a: u8, b: u8) -> u8
    ensures { result ≡ higher a b }
{
    a.max(b)
}

// Whether x is one of 1..most.
pub fn is_between(x: u8, most: u8) -> bool
    ensures { result ≡ (nat_lt 0 x && nat_le x most) }
{
    (1..=most).contains(&x)
}

pub fn in_range(p: u8, n: u8) -> bool
    ensures { result ≡ in_range p n }
{
    (1..=15).contains(&p) & (n <= 8)
}

// Whether entry e is in the open set.
pub fn is_open(o: u8, e: u8) -> bool
    ensures { result ≡ opens o e }
{
    if e == 0 {
        return false; // there is no entry 0
    }
    if e > 8 {
        return false;
    }
    (o >> (e - 1)) % 2 == 1
}

// Whether the open set names an entry above n.
pub fn is_too_wide(o: u8, n: u8) -> bool
    ensures { result ≡ nat_le (2 ^ n) o }
{
    if n > 7 {
        return false;
    }
    o >> n != 0
}

pub fn accepts_at(p: Place, e: u8) -> bool
    ensures { result ≡ accepts p e }
{
    match p {
        Place::Accepting(o) => is_open(o.opens, e),
        _ => false, // who does not wait to accept
    }
}
