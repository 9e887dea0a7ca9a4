// The check that two tables keep the rules: their stretches lie end to end over the whole area, and all other places are unused.
ghost use Rattle.std.specs.Prelude.{◌≡◌, ◌^◌, ◌<◌, false};
ghost use Rattle.workspace.specs.Check.{begins_at, reach_of, tiled};
ghost use Rattle.workspace.specs.Steps.{keeps_seen};

use crate::places::{all_none, nth};
use crate::{Look, Reach, Stretch, Used};

pub fn begins_at(x: Stretch, at: u64) -> bool
    ensures { result ≡ begins_at at x }
{
    (u64::from(x.start) == at) & (0 < x.length)
}

// One stretch further, x in the table of blocks or y in the table of free stretches; None where neither begins at the unit reached.
pub fn reached(t: Reach, x: Stretch, y: Stretch) -> Option<Reach>
    requires at_bound { t.at < 2 ^ 40 }
    requires i_bound { t.i < 2 ^ 63 }
    requires j_bound { t.j < 2 ^ 63 }
    ensures { result ≡ reach_of t x y }
{
    if begins_at(x, t.at) {
        return Some(Reach {
            at: t.at + u64::from(x.length),
            i: t.i + 1,
            j: t.j,
            after: false,
        });
    }
    if !t.after & begins_at(y, t.at) {
        return Some(Reach {
            at: t.at + u64::from(y.length),
            i: t.i,
            j: t.j + 1,
            after: true,
        });
    }
    None
}

// The blocks and the free stretches lie end to end over the whole area. There are at most 63, so the 64th turn finds none.
pub fn tiles(blocks: &[Stretch], free: &[Stretch]) -> bool
    ensures { result ≡ tiled 64 false 0 blocks.now free.now }
{
    let mut t = Reach::default();
    for _ in 0..64u8 {
        let Some(further) = reached(t, nth(blocks, t.i), nth(free, t.j)) else {
            return (t.at == 65536) & (t.i == blocks.len()) & (t.j == free.len());
        };
        t = further;
    }
    false
}

// The tables keep the rules.
pub fn keeps(seen: Look, used: Used) -> bool
    ensures { result ≡ keeps_seen seen used }
{
    if seen.long & seen.clear & (used.blocks <= 31) & (used.free <= 32) {
        let (blocks, behind) = seen.blocks.split_at(used.blocks);
        let (free, behind_free) = seen.free.split_at(used.free);
        let x = all_none(behind);
        let y = all_none(behind_free);
        let t = tiles(blocks, free);
        x & y & t
    } else {
        false
    }
}
