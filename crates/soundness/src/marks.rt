// One 32-bit word: bit t says that task t is still to be met in a line. Bit 0 is no task's.
ghost use Rattle.std.specs.Prelude.{◌≡◌};
ghost use Rattle.soundness.specs.Marks.{has_mark, is_none, next_mark, put_mark, without_mark};

// Whether task t is still to be met.
pub fn has(word: u32, t: u8) -> bool
    ensures { result ≡ has_mark word t }
{
    if t < 32 { (word >> t) % 2 == 1 } else { false }
}

// The word with one more task below those that it has, which is to be met, if it is so said.
pub fn next(word: u32, here: bool) -> u32
    ensures { result ≡ next_mark word here }
{
    (word % 2147483648) * 2 + (u32::from(here))
}

// The word where task t, which was to be met, is no longer.
pub fn without(word: u32, t: u8) -> u32
    ensures { result ≡ without_mark word t }
{
    if t < 32 { word ^ (1u32 << t) } else { word }
}

// The word where task t is marked exactly if it is so said. `without` changes its bit, whichever way it stands.
pub fn put(word: u32, t: u8, here: bool) -> u32
    ensures { result ≡ put_mark word t here }
{
    if has(word, t) != here {
        without(word, t)
    } else {
        word
    }
}

// Whether none is still to be met.
pub fn is_none(word: u32) -> bool
    ensures { result ≡ is_none word }
{
    word == 0
}
