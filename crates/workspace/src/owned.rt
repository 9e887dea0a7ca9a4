// The operations on two tables of 32 places by value, for callers that own their tables: each lends them to the operation of its name.
ghost use Rattle.std.specs.Prelude.{◌≡◌};
ghost use Rattle.workspace.specs.Operations.{request_of, release_of};
ghost use Rattle.workspace.specs.Owning.{owned_fresh, owned_after};

use crate::Tables;

// Makes a fresh area, whatever the tables hold.
pub fn fresh(area: Tables) -> Tables
    ensures { result ≡ owned_fresh area }
{
    let mut r = area;
    r.answer = crate::fresh(&mut r.blocks, &mut r.free);
    r
}

// Takes a block of `size` units off the front of the first free stretch that is long enough.
pub fn request(area: Tables, size: u32) -> Tables
    ensures { result ≡ owned_after area (request_of area.blocks area.free area.answer.used size) }
{
    let mut r = area;
    r.answer = crate::request(&mut r.blocks, &mut r.free, area.answer.used, size);
    r
}

// Gives the block that starts at `start` back, and joins its units with free neighbours.
pub fn release(area: Tables, start: u32) -> Tables
    ensures { result ≡ owned_after area (release_of area.blocks area.free area.answer.used start) }
{
    let mut r = area;
    r.answer = crate::release(&mut r.blocks, &mut r.free, area.answer.used, start);
    r
}
