// The second engine's state in lent bytes: its core, and behind it the rows.
ghost use Rattle.std.specs.Prelude.{◌≤◌, ◌≡◌, length, drop};
ghost use Rattle.codec.specs.Rows.{rows_at, second_size, rows_in, no_rows, core_from, as_first, lost_second, second_in, put_rows, stored_second};

use super::{READY_AT, line_from, lost_state, put_at, state_in, store};
use rules::{Core, Row, Second, Supervisor};

// Where the rows stand, and how many bytes a state takes.
pub const ROWS_AT: usize = READY_AT + 3 * 31;

pub const SECOND_SIZE: usize = ROWS_AT + 31 * 31;

// The core in the bytes, by the state that the first engine reads there.
fn core_from(s: Supervisor) -> Core
    ensures { result ≡ core_from s }
{
    let held = s.callers;
    let delays = s.core.held;
    let k = s.core;
    Core { held, delays, ..k }
}

// A state of the first engine whose bytes begin with those of the core.
fn as_first(k: Core) -> Supervisor
    ensures { result ≡ as_first k }
{
    let callers = k.held;
    let held = k.delays;
    let delays = [0u8; 31];
    let core = Core { held, delays, ..k };
    Supervisor { core, callers }
}

// Rows in which nobody stands.
fn no_rows() -> [Row; 31]
    ensures { result ≡ no_rows }
{
    let line = [0u8; 31];
    [Row { line }; 31]
}

// A state that is not sound.
fn lost_second() -> Second
    ensures { result ≡ lost_second }
{
    let core = lost_state().core;
    let rows = no_rows();
    Second { core, rows }
}

// The rows behind the core.
fn rows_in(b: &[u8]) -> [Row; 31]
    requires { second_size ≤ length b.now }
    ensures { result ≡ rows_in 31 (drop rows_at b.now) }
{
    std::array::from_fn(|i| Row {
        line: line_from(b, ROWS_AT + i * 31),
    })
}

// The state of lent bytes; one that is not sound where they are no encoding.
pub fn second_in(b: &[u8]) -> Second
    ensures { result ≡ second_in b.now }
{
    if b.len() < SECOND_SIZE {
        return lost_second();
    }
    let s = state_in(b);
    let core = core_from(s);
    let rows = rows_in(b);
    Second { core, rows }
}

// Puts the rows behind the core.
fn put_rows(room: &mut [u8], rows: [Row; 31])
    requires { second_size ≤ length room.old }
    ensures { room.new ≡ put_rows 0 room.old rows }
{
    for (i, row) in rows.iter().enumerate() {
        put_at(room, ROWS_AT + i * 31, &row.line);
    }
}

// Puts a state into lent bytes, if they are long enough: beside `store`, since the bytes of this engine are laid out otherwise.
pub fn second_store(x: Second, room: &mut [u8])
    ensures { room.new ≡ stored_second x room.old }
{
    if room.len() < SECOND_SIZE {
        return;
    }
    let s = as_first(x.core);
    store(s, room);
    let rows = x.rows;
    put_rows(room, rows);
}
