// What a call gave.
ghost use Rattle.std.specs.Prelude.{◌≡◌, nat_lt};
ghost use Rattle.rules.specs.Whole.{refused_answer};
ghost use Rattle.steps.specs.Taken.{answer_by};

use rules::{Answer, Core};

// What a call gave: the state, a refusal (0 if none), the four numbers of the answer, and the number of ended waits.
// The refusal is a number beside them, since `refused_by` tells of a refused call in the same struct, and the answer that `answer_by` makes of it has that
// number. The result is one too, since definitions compare this struct with the rules' `Item`, which has one.
#[derive(Clone, Copy)]
pub struct Taken {
    pub state: Core,
    pub refusal: u8,
    pub task: u8,
    pub result: u8,
    pub entry: u8,
    pub partner: u8,
    pub ended: u8,
}

// The call is refused: the state stays, and all other numbers are 0.
pub fn refused_by(s: Core, why: u8) -> Taken
    ensures { result ≡ record { state = s; refusal = why; task = 0; result = 0; entry = 0; partner = 0; ended = 0 } }
{
    Taken {
        state: s,
        refusal: why,
        task: 0,
        result: 0,
        entry: 0,
        partner: 0,
        ended: 0, // no wait has ended
    }
}

// The call is taken: s is the state afterwards. A function of a call that is never refused answers `Ok` of it itself: if its caller did, the core would be
// copied once more.
pub fn answered(s: Core, t: u8, res: u8, entry: u8, partner: u8, ended: u8) -> Taken
    ensures { result ≡ record { state = s; refusal = 0; task = t; result = res; entry = entry; partner = partner; ended = ended } }
{
    Taken {
        state: s,
        refusal: 0,
        task: t,
        result: res,
        entry,
        partner,
        ended,
    }
}

// Whether n bytes are too few for the items of a step.
pub fn is_short(n: usize) -> bool
    ensures { result ≡ nat_lt n 124 }
{
    n < 124
}

// The answer of a call or record that is refused, where `next` is the dispatched task.
pub fn refused_answer(n: u8, next: u8) -> Answer
    ensures { result ≡ refused_answer n next }
{
    Answer {
        refusal: n,
        result: 0,
        task: 0,
        entry: 0,
        partner: 0,
        ended: 0, // nothing stands in the room
        next,
    }
}

// What a call gave, as the answer of a step, where `next` is the dispatched task: field by field, since an answer has no core.
pub fn answer_by(k: Taken, next: u8) -> Answer
    ensures { result ≡ answer_by k next }
{
    Answer {
        refusal: k.refusal,
        result: k.result,
        task: k.task,
        entry: k.entry,
        partner: k.partner,
        ended: k.ended,
        next,
    }
}
