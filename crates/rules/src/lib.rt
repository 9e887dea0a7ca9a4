// The state of the supervisor and the answers: types and numbers. All else stands in specs/.
#![tactic(auto)]

ghost use Rattle.std.specs.Prelude.{◌≡◌};

// The time of a wait: none, or the clock reading at which it ends. No `Option<u32>`: `Due` says what the number is, in the definitions too.
#[derive(Clone, Copy)]
pub enum Timer {
    Off,
    Due(u32),
}

// A caller in a queue: whom it has called, and at which entry.
#[derive(Clone, Copy)]
pub struct Waiting {
    pub target: u8,
    pub entry: u8,
}

// A caller in a rendezvous: who holds it, at which entry, and what the holder's current priority was before.
#[derive(Clone, Copy)]
pub struct Meeting {
    pub holder: u8,
    pub entry: u8,
    pub kept: u8,
}

// A task that waits to accept: the set of its open entries.
#[derive(Clone, Copy)]
pub struct Offer {
    pub opens: u8,
}

#[derive(Clone, Copy)]
pub enum Place {
    Blank,
    Ready,
    Delayed,
    Queued(Waiting),
    Held(Meeting),
    Accepting(Offer),
    Completed,
}

// A task: the priority with which it was created, the current one, its entries, its place and its time.
#[derive(Clone, Copy)]
pub struct Task {
    pub priority: u8,
    pub current: u8,
    pub entries: u8,
    pub place: Place,
    pub timer: Timer,
}

// All of a state but its callers: what both engines have. The queues are arrays, with blanks behind: a card has no heap.
#[derive(Clone, Copy)]
pub struct Core {
    pub clock: u32,
    pub created: u8,
    pub tasks: [Task; 31],
    pub ready: [u8; 31],
    pub held: [u8; 31],
    pub delays: [u8; 31],
}

// The first engine: all callers in one line.
#[derive(Clone, Copy)]
pub struct Supervisor {
    pub core: Core,
    pub callers: [u8; 31],
}

// The calls to one task, whatever the entry.
#[derive(Clone, Copy)]
pub struct Row {
    pub line: [u8; 31],
}

// The second engine: a queue of callers for each task.
#[derive(Clone, Copy)]
pub struct Second {
    pub core: Core,
    pub rows: [Row; 31],
}

// Task, result, entry, partner: an ended wait, and the same four numbers of an answer.
// The result is a number, which the statements and C have.
#[derive(Clone, Copy)]
pub struct Item {
    pub task: u8,
    pub result: u8,
    pub entry: u8,
    pub partner: u8,
}

// The result of a step or of an ended wait, with the numbers that those who asked are told.
#[derive(Clone, Copy, Debug, PartialEq, Eq)]
pub enum StepResult {
    Waits = 0,
    Elapsed = 1,
    Served = 2,
    CallExpired = 3,
    TaskingError = 4,
    Accepted = 5,
    DelayTaken = 6,
    ElseTaken = 7,
    NotNow = 8,
    ProgramError = 9,
    Done = 10,
}

impl From<StepResult> for u8 {
    ghost use Rattle.rules.specs.Step.{result_number};

    ghost from_gives = { λ r n. n ≡ result_number r };

    fn from(res: StepResult) -> u8 {
        res as u8
    }
}

// Why a step is refused, in order of checking, with the numbers that those who asked are told: 10 is retired. SHORT_ROOM is the
// writer's too, so its number stands in `calls` as well.
#[derive(Clone, Copy, Debug, PartialEq, Eq)]
pub enum Refusal {
    ShortRoom = 1,
    BadState = 2,
    BadField = 3,
    NoTask = 4,
    NoTarget = 5,
    NoEntry = 6,
    NotServing = 7,
    StillServing = 8,
    Full = 9,
}

impl From<Refusal> for u8 {
    ghost use Rattle.rules.specs.Step.{number};

    ghost from_gives = { λ r n. n ≡ number r };

    fn from(refusal: Refusal) -> u8 {
        refusal as u8
    }
}

// What a step answers: a refusal (0 if none), the result with its task, entry and partner, the number of ended waits, and
// the dispatched task afterwards (0 if none). Refusal and result are numbers, which the statements and C have.
#[derive(Clone, Copy)]
pub struct Answer {
    pub refusal: u8,
    pub result: u8,
    pub task: u8,
    pub entry: u8,
    pub partner: u8,
    pub ended: u8,
    pub next: u8,
}

// What a step of an engine gives: the state afterwards, and the answer.
#[derive(Clone, Copy)]
pub struct Stepped<S> {
    pub state: S,
    pub answer: Answer,
}

// The refusal of a question: the state is not sound.
#[derive(Clone, Copy, Debug, PartialEq, Eq)]
pub struct BadState;

// Its number, for those who are answered in bytes.
impl From<BadState> for u8 {
    ghost from_gives = { λ _ n. n ≡ 2 };

    fn from(_refusal: BadState) -> u8 {
        Refusal::BadState.into()
    }
}
