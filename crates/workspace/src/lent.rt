// The lent tables: searched, read, and written.
ghost use Rattle.std.specs.Prelude.{◌≡◌};
ghost use Rattle.workspace.specs.Seen.{table_of, laid, look_of};

use crate::places::{all_none, first_fit};
use crate::{Look, Stretch, Table, UNUSED};

// What is seen of a table.
pub fn loaded(table: &[Stretch]) -> Table
    ensures { result ≡ table_of table.now }
{
    let (front, behind) = table.split_at(table.len().min(32));
    let mut places = [UNUSED; 32];
    places[..front.len()].copy_from_slice(front);
    Table {
        places,
        clear: all_none(behind),
    }
}

// Writes each place of a table.
pub fn stored(table: &mut [Stretch], t: Table)
    ensures { table.new ≡ laid t table.old }
{
    if t.clear {
        table.fill(UNUSED);
    }
    let n = table.len().min(32);
    table[..n].copy_from_slice(&t.places[..n]);
}

// What is seen of both tables.
pub fn look_at(blocks: &[Stretch], free: &[Stretch], size: u32) -> Look
    ensures { result ≡ look_of blocks.now free.now size }
{
    let b = loaded(blocks);
    let f = loaded(free);
    let seen_blocks = b.places;
    let seen_free = f.places;
    Look {
        blocks: seen_blocks,
        free: seen_free,
        long: (31 <= blocks.len()) & (32 <= free.len()),
        clear: b.clear & f.clear,
        place: first_fit(free, size).unwrap_or(free.len()),
    }
}
