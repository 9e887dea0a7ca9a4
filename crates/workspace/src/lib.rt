// Workspaces for tasks: a storage package over an area of 65,536 units.
//
// The caller lends two tables, of at least 31 places for blocks and at least 32 for free stretches, and keeps the number of places
// used in each, as the last answer gave it. The rules that both tables keep, and what each operation does, are in specs/.
#![tactic(auto)]

mod lent; // lent.rt: the lent tables, searched, read and written
mod places; // places.rt: the places of a table: searched, set, taken out, put in
mod rules; // rules.rt: the check that two tables keep the rules
mod steps; // steps.rt: what each operation does to the places
pub mod owned; // owned.rt: the same operations on two tables by value

ghost use Rattle.std.specs.Prelude.{◌≡◌};
ghost use Rattle.workspace.specs.Operations.{fresh_of, request_of, release_of, blocks_after, free_after, answer_of, unused};

use lent::{look_at, stored};
use steps::{made, released, requested};

// `length` units from `start` on.
#[derive(Clone, Copy, PartialEq, Eq)]
pub struct Stretch {
    pub start: u32,
    pub length: u32,
}

// An unused place of a table.
pub const UNUSED: Stretch = Stretch {
    start: 0,
    length: 0,
};

// The number of places used in the table of blocks and in the table of free stretches.
#[derive(Clone, Copy)]
pub struct Used {
    pub blocks: usize,
    pub free: usize,
}

// The refusal number or 0; the start of the block requested or the length of the one released; and the places used from now on.
// The refusal is a number: the theorems in statements/specs/Workspaces.antt speak of it.
#[derive(Clone, Copy)]
pub struct Answer {
    pub refusal: u8,
    pub value: u32,
    pub used: Used,
}

// Two tables of 32 places by value, and the last answer, which has the places used. They are arrays, since there is no heap.
#[derive(Clone, Copy)]
pub struct Tables {
    pub blocks: [Stretch; 32],
    pub free: [Stretch; 32],
    pub answer: Answer,
}

// What is seen of a lent table: its first 32 places, and whether all places behind them are unused.
#[derive(Clone, Copy)]
struct Table {
    places: [Stretch; 32],
    clear: bool,
}

// What is seen of the two lent tables: the first 32 places of each, whether there are 31 and 32, whether all places behind them are
// unused, and the place of the first free stretch that is long enough. With none, it is the number of places: as a place behind those
// used it is refused by one comparison. The places are arrays, since there is no heap.
#[derive(Clone, Copy)]
struct Look {
    blocks: [Stretch; 32],
    free: [Stretch; 32],
    long: bool,
    clear: bool,
    place: usize,
}

// What is to be written to the two tables, and the answer.
#[derive(Clone, Copy)]
struct Done {
    blocks: Table,
    free: Table,
    answer: Answer,
}

// Why an operation is refused, by its number in an answer.
#[derive(Clone, Copy)]
enum Refusal {
    BadState = 2,
    BadSize = 13,
    BlocksFull = 14,
    NoSpace = 15,
    BadBlock = 16,
}

// How far the check has come: the unit reached, the places passed in each table, and whether the last stretch was free.
#[derive(Clone, Copy, Default)]
struct Reach {
    at: u64,
    i: usize,
    j: usize,
    after: bool,
}

// Makes a fresh area of the two tables, whatever they hold.
pub fn fresh(blocks: &mut [Stretch], free: &mut [Stretch]) -> Answer
    ensures { (result ≡ answer_of unused (fresh_of blocks.old free.old))
        × (blocks.new ≡ blocks_after blocks.old (fresh_of blocks.old free.old))
        × (free.new ≡ free_after free.old (fresh_of blocks.old free.old)) }
{
    let old = look_at(blocks, free, 0);
    let new = made(old);
    stored(blocks, new.blocks);
    stored(free, new.free);
    new.answer
}

// Takes a block of `size` units off the front of the first free stretch that is long enough.
pub fn request(blocks: &mut [Stretch], free: &mut [Stretch], used: Used, size: u32) -> Answer
    ensures { (result ≡ answer_of used (request_of blocks.old free.old used size))
        × (blocks.new ≡ blocks_after blocks.old (request_of blocks.old free.old used size))
        × (free.new ≡ free_after free.old (request_of blocks.old free.old used size)) }
{
    let seen = look_at(blocks, free, size);
    let taken = requested(seen, used, size);
    stored(blocks, taken.blocks);
    stored(free, taken.free);
    taken.answer
}

// Gives the block that starts at `start` back, and joins its units with free neighbours.
pub fn release(blocks: &mut [Stretch], free: &mut [Stretch], used: Used, start: u32) -> Answer
    ensures { (result ≡ answer_of used (release_of blocks.old free.old used start))
        × (blocks.new ≡ blocks_after blocks.old (release_of blocks.old free.old used start))
        × (free.new ≡ free_after free.old (release_of blocks.old free.old used start)) }
{
    let seen = look_at(blocks, free, 0);
    let given = released(seen, used, start);
    stored(blocks, given.blocks);
    stored(free, given.free);
    given.answer
}
