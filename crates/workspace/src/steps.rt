// What each operation does to the places of both tables, and what it answers.
ghost use Rattle.std.specs.Prelude.{◌≡◌, ◌-◌, ◌<◌, ◌≤◌};
ghost use Rattle.lists.specs.Lists.{when◌then◌else◌};
ghost use Rattle.workspace.specs.Places.{remove_at};
ghost use Rattle.workspace.specs.Steps.{number_of, number_or_0, refused_as, done_as, fresh_seen, request_refusal, cut_at, grant_seen, request_seen, touches_low, touches_high, whole_at, give_at, free_seen, release_seen};

use crate::places::{closed, first_behind, nth, opened, starting_at, with_at};
use crate::rules::keeps;
use crate::{Answer, Done, Look, Refusal, Stretch, Table, UNUSED, Used};

// The parts of what is done: the places of both tables, the answer, and the number of places used.
pub fn done_as(bs: [Stretch; 32], fs: [Stretch; 32], value: u32, m: usize, n: usize) -> Done
    ensures { result ≡ done_as bs fs value m n }
{
    let blocks = Table {
        places: bs,
        clear: true,
    };
    let free = Table {
        places: fs,
        clear: true,
    };
    let used = Used { blocks: m, free: n };
    let answer = Answer {
        refusal: 0,
        value,
        used,
    };
    Done {
        blocks,
        free,
        answer,
    }
}

// A refusal changes nothing.
pub fn refused(seen: Look, used: Used, why: Refusal) -> Done
    ensures { result ≡ refused_as seen used (number_of why) }
{
    let bs = seen.blocks;
    let fs = seen.free;
    let blocks = Table {
        places: bs,
        clear: false,
    };
    let free = Table {
        places: fs,
        clear: false,
    };
    let answer = Answer {
        refusal: why as u8,
        value: 0,
        used,
    };
    Done {
        blocks,
        free,
        answer,
    }
}

// A fresh area is one free stretch; a refusal counts no places.
pub fn made(seen: Look) -> Done
    ensures { result ≡ fresh_seen seen }
{
    if seen.long {
        let blocks = [UNUSED; 32];
        let mut free = blocks;
        free[0] = Stretch {
            start: 0,
            length: 65536,
        };
        done_as(blocks, free, 0, 0, 1)
    } else {
        let unused = Used { blocks: 0, free: 0 };
        refused(seen, unused, Refusal::BadState)
    }
}

// The refusal of a request, for which a free stretch is found at `place`.
pub fn request_refusal(kept: bool, m: usize, n: usize, place: usize, size: u32) -> Option<Refusal>
    ensures { number_or_0 result ≡ request_refusal kept (record { blocks = m; free = n }) place size }
{
    if !kept {
        return Some(Refusal::BadState);
    }
    let sized = (1 <= size) & (size <= 65535);
    if !sized {
        return Some(Refusal::BadSize);
    }
    if 31 <= m {
        return Some(Refusal::BlocksFull);
    }
    if n <= place {
        return Some(Refusal::NoSpace);
    }
    None
}

// The free stretches once `size` units are taken off the front of the one at place p, or all of it.
pub fn cut_at(l: [Stretch; 32], p: usize, size: u32) -> [Stretch; 32]
    ensures { result ≡ cut_at p size l }
{
    let s = nth(&l, p);
    if size < s.length {
        let rest = Stretch {
            start: s.start.wrapping_add(size),
            length: s.length - size,
        };
        with_at(l, p, rest)
    } else {
        closed(l, p)
    }
}

// The front of the stretch found becomes a block.
pub fn granted(seen: Look, used: Used, size: u32) -> Done
    requires blocks_bound { used.blocks ≤ 31 }
    requires free_nonzero { 0 < used.free }
    ensures { result ≡ grant_seen seen used size }
{
    let bs = seen.blocks;
    let fs = seen.free;
    let s = nth(&fs, seen.place);
    let k = first_behind(&bs[..used.blocks], s.start).unwrap_or(used.blocks);
    let block = Stretch {
        start: s.start,
        length: size,
    };
    let blocks = opened(bs, k, block);
    let free = cut_at(fs, seen.place, size);
    let left = used.free - usize::from(s.length <= size);
    done_as(blocks, free, s.start, used.blocks + 1, left)
}

pub fn requested(seen: Look, used: Used, size: u32) -> Done
    ensures { result ≡ request_seen seen used size }
{
    let kept = keeps(seen, used);
    match request_refusal(kept, used.blocks, used.free, seen.place, size) {
        Some(why) => refused(seen, used, why),
        None => granted(seen, used, size),
    }
}

// The free stretch before place k touches b.
pub fn touches_low(b: Stretch, k: usize, l: [Stretch; 32]) -> bool
    ensures { result ≡ touches_low b k l }
{
    let j = k.saturating_sub(1);
    let x = nth(&l, j);
    (0 < k) & (u64::from(x.start) + u64::from(x.length) == u64::from(b.start))
}

// The free stretch at place k touches b.
pub fn touches_high(b: Stretch, k: usize, l: [Stretch; 32]) -> bool
    ensures { result ≡ touches_high b k l }
{
    let x = nth(&l, k);
    u64::from(b.start) + u64::from(b.length) == u64::from(x.start)
}

// b, which goes to the place k, with the neighbours that touch it.
pub fn whole_of(low: bool, high: bool, b: Stretch, k: usize, l: [Stretch; 32]) -> Stretch
    ensures { result ≡ whole_at low high b k l }
{
    let j = k.saturating_sub(1);
    let x = nth(&l, j);
    let y = nth(&l, k);
    let start = if low { x.start } else { b.start };
    let before = if low { x.length } else { 0 };
    let behind = if high { y.length } else { 0 };
    let length = before.wrapping_add(b.length).wrapping_add(behind);
    Stretch { start, length }
}

// The free stretches without the one at place k, where that one touches.
pub fn rest_of(high: bool, k: usize, l: [Stretch; 32]) -> [Stretch; 32]
    ensures { result ≡ (when high then remove_at k l else l) }
{
    if high { closed(l, k) } else { l }
}

// The neighbours that touch b are taken out, and the whole is put in.
pub fn give_back(low: bool, high: bool, b: Stretch, k: usize, l: [Stretch; 32]) -> [Stretch; 32]
    ensures { result ≡ give_at low high b k l }
{
    let whole = whole_of(low, high, b, k, l);
    let rest = rest_of(high, k, l);
    if low {
        let j = k.saturating_sub(1);
        with_at(rest, j, whole)
    } else {
        opened(rest, k, whole)
    }
}

// The block at place p becomes free.
pub fn freed(seen: Look, used: Used, p: usize) -> Done
    requires blocks_nonzero { 0 < used.blocks }
    requires free_bound { used.free ≤ 32 }
    ensures { result ≡ free_seen seen used p }
{
    let bs = seen.blocks;
    let fs = seen.free;
    let b = nth(&bs, p);
    let k = first_behind(&fs[..used.free], b.start).unwrap_or(used.free);
    let low = touches_low(b, k, fs);
    let high = touches_high(b, k, fs);
    let blocks = closed(bs, p);
    let free = give_back(low, high, b, k, fs);
    let left = used.free + 1 - usize::from(low) - usize::from(high);
    done_as(blocks, free, b.length, used.blocks - 1, left)
}

pub fn released(seen: Look, used: Used, start: u32) -> Done
    ensures { result ≡ release_seen seen used start }
{
    if !keeps(seen, used) {
        return refused(seen, used, Refusal::BadState);
    }
    let bs = seen.blocks;
    match starting_at(&bs[..used.blocks], start) {
        Some(p) => freed(seen, used, p),
        None => refused(seen, used, Refusal::BadBlock),
    }
}
