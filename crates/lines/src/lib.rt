// Lines: task numbers in order, and blanks (0) behind them, in an array of 31.
#![tactic(auto)]

ghost use Rattle.std.specs.Prelude.{◌≡◌, ℕ, ◌<◌, Bool, [], ◌∷◌, ◌++◌, length, slice_set};
ghost use Rattle.lists.specs.Lists.{filter, remove, rejoin, to_head, first, last};
ghost use Rattle.lists.specs.Line.{line, pad};
ghost use Rattle.lists.specs.Marks.{no_marks, mark_of, marked, with_mark, insert_by};

// How many stand in the line.
pub fn len(a: [u8; 31]) -> usize
    ensures { result ≡ length (line a) }
{
    a.iter().position(|t| *t == 0).unwrap_or(a.len())
}

// The line with t at its tail. A full line stays as it is.
pub fn joined(a: [u8; 31], t: u8) -> [u8; 31]
    ensures { result ≡ pad (line a ++ (t ∷ [])) }
{
    let mut r = [0u8; 31];
    for (i, &u) in a.iter().enumerate() {
        if u == 0 {
            r[i] = t;
            return r;
        }
        r[i] = u;
    }
    r
}

// Those of the line that stay; the others leave, and those behind them move up.
pub fn kept<F: Fn(u8) -> bool>(a: [u8; 31], stays: F) -> [u8; 31]
    requires { F.IsAlwaysCallable stays }
    ensures { (test : ℕ → Bool) → ((x : ℕ) (b : Bool) → x < 256 → F.post stays x b → b ≡ test x) → result ≡ pad (filter test (line a)) }
{
    let mut r = [0u8; 31];
    let mut j: usize = 0;
    for &x in &a {
        if x == 0 {
            return r;
        }
        if stays(x) {
            r[j] = x;
            j += 1;
        }
    }
    r
}

// The line without t: those behind it move up.
pub fn without(a: [u8; 31], t: u8) -> [u8; 31]
    ensures { result ≡ pad (remove t (line a)) }
{
    kept(a, |x| x != t)
}

// The line without t, and with t at its end if it belongs there now. What is left of the line has blanks behind it: it need not be laid out afresh.
pub fn rejoined(a: [u8; 31], t: u8, joins: bool) -> [u8; 31]
    ensures { result ≡ pad (rejoin joins t (line a)) }
{
    let mut rest = without(a, t);
    if joins {
        let n = len(rest);
        if n < 31 {
            rest[n] = t;
        }
    }
    rest
}

// The line with t in front of it. Of a full line the last falls off.
fn in_front(a: [u8; 31], t: u8) -> [u8; 31]
    ensures { result ≡ pad (t ∷ line a) }
{
    let mut r = [0u8; 31];
    let mut carry = t;
    for (i, &x) in a.iter().enumerate() {
        r[i] = carry;
        if x == 0 {
            return r;
        }
        carry = x;
    }
    r
}

// The line with t at its head: those that stood before it come behind it.
pub fn to_head(a: [u8; 31], t: u8) -> [u8; 31]
    ensures { result ≡ pad (to_head t (line a)) }
{
    let rest = without(a, t);
    in_front(rest, t)
}

// The line laid out afresh: what stood behind a blank is gone.
fn tidied(a: [u8; 31]) -> [u8; 31]
    ensures { result ≡ pad (line a) }
{
    joined(a, 0)
}

// Line b behind line a, as far as there is room.
pub fn joined_all(a: [u8; 31], b: [u8; 31]) -> [u8; 31]
    ensures { result ≡ pad (line a ++ line b) }
{
    let mut r = tidied(a);
    let n = len(a);
    for (i, &x) in b[..31 - n].iter().enumerate() {
        if x == 0 {
            return r;
        }
        r[n + i] = x;
    }
    r
}

// The first of the line, 0 where there is none.
pub fn first_of(a: [u8; 31]) -> u8
    ensures { result ≡ first (line a) }
{
    a[0]
}

// The last of the line, 0 where there is none.
pub fn last_of(a: [u8; 31]) -> u8
    ensures { result ≡ last (line a) }
{
    let n = len(a);
    if n == 0 {
        return 0;
    }
    a[n - 1]
}

// The mark of t; 0 for a number that has none.
pub fn mark_of(marks: [u8; 32], t: u8) -> u8
    ensures { result ≡ mark_of marks t }
{
    marks.get(usize::from(t)).copied().unwrap_or(0)
}

// t gets the mark x; a number that has no mark gets none.
pub fn mark<T: Copy>(marks: &mut [T; 32], t: u8, x: T)
    ensures { marks.new ≡ slice_set marks.old t x }
{
    let at = usize::from(t);
    if at < marks.len() {
        marks[at] = x;
    }
}

// Marks with a 1 for each of the line.
pub fn marks_of(a: [u8; 31]) -> [u8; 32]
    ensures { result ≡ marked (λ _. 1) (line a) no_marks }
{
    let mut r = [0u8; 32];
    for &t in &a {
        if t == 0 {
            return r;
        }
        mark(&mut r, t, 1);
    }
    r
}

// Those of the line with the mark k.
pub fn picked(a: [u8; 31], marks: [u8; 32], k: u8) -> [u8; 31]
    ensures { result ≡ pad (with_mark marks k (line a)) }
{
    kept(a, |x| mark_of(marks, x) == k)
}

// The line with t, whose key is k, in its order: before the first that has a larger key, so behind those that have an equal one. Of a full line the last falls off.
pub fn put_by(a: [u8; 31], t: u8, keys: [u32; 32], k: u32) -> [u8; 31]
    ensures { result ≡ pad (insert_by keys k t (line a)) }
{
    let mut r = [0u8; 31];
    let mut carry = t;
    let mut passed = false;
    for (i, &x) in a.iter().enumerate() {
        if x == 0 {
            r[i] = carry;
            return r;
        }
        passed |= k < keys.get(usize::from(x)).copied().unwrap_or(0);
        if passed {
            r[i] = carry;
            carry = x;
        } else {
            r[i] = x;
        }
    }
    r
}
