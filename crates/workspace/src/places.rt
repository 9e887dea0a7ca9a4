// The places of a table: searched, set, taken out and put in.
ghost use Rattle.std.specs.Prelude.{◌≡◌, slice_index_or, slice_set};
ghost use Rattle.std.specs.List.{list_all, position};
ghost use Rattle.workspace.specs.Rules.{none, is_none};
ghost use Rattle.workspace.specs.Places.{has_start, is_behind, has_units, remove_at, insert_at};

use crate::{Stretch, UNUSED};

// What stands at place i; an unused place where there is none.
pub fn nth(places: &[Stretch], i: usize) -> Stretch
    ensures { result ≡ slice_index_or places.now i none }
{
    places.get(i).copied().unwrap_or(UNUSED)
}

// The places with x at i; the same where there is no place i.
pub fn with_at(a: [Stretch; 32], i: usize, x: Stretch) -> [Stretch; 32]
    ensures { result ≡ slice_set a i x }
{
    let mut r = a;
    if i < 32 {
        r[i] = x;
    }
    r
}

// The place of the stretch that starts at a number.
pub fn starting_at(places: &[Stretch], start: u32) -> Option<usize>
    ensures { result ≡ position (has_start start) places.now }
{
    places.iter().position(|x| x.start == start)
}

// The place of the first stretch that starts behind a number.
pub fn first_behind(places: &[Stretch], start: u32) -> Option<usize>
    ensures { result ≡ position (is_behind start) places.now }
{
    places.iter().position(|x| start < x.start)
}

// The place of the first stretch that has at least `size` units.
pub fn first_fit(places: &[Stretch], size: u32) -> Option<usize>
    ensures { result ≡ position (has_units size) places.now }
{
    places.iter().position(|x| size <= x.length)
}

// A place is unused.
pub fn is_unused(x: &Stretch) -> bool
    ensures { result ≡ is_none x.now }
{
    *x == UNUSED
}

// All places are unused.
pub fn all_none(places: &[Stretch]) -> bool
    ensures { result ≡ list_all is_none places.now }
{
    places.iter().all(is_unused)
}

// The places without the one at p: those behind it move up, and the last is unused.
pub fn closed(a: [Stretch; 32], p: usize) -> [Stretch; 32]
    ensures { result ≡ remove_at p a }
{
    let mut r = a;
    if p < 32 {
        r[p..].rotate_left(1);
        r[31] = UNUSED;
    }
    r
}

// The places with x put in at p: those from p on move down, and the last is left out.
pub fn opened(a: [Stretch; 32], p: usize, x: Stretch) -> [Stretch; 32]
    ensures { result ≡ insert_at p x a }
{
    let mut r = a;
    if p < 32 {
        r[p..].rotate_right(1);
        r[p] = x;
    }
    r
}
