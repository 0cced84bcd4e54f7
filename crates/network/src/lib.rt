// The data model of a drainage network: the reach record, its kinds and states, the limits, and the refusals by number.
// What they mean is in specs/; the laws about those definitions are in proofs/.

#![tactic(auto)]

ghost use Rattle.std.specs.Prelude.{◌≡◌};
ghost use Rattle.network.specs.Replies.{refusal_number};

// The most basins and the most reaches of a network.
pub const MAX_BASINS: usize = 256;

pub const MAX_REACHES: usize = 1024;

// The kind of a reach.
#[derive(Clone, Copy, PartialEq, Eq)]
pub enum Kind {
    // May be hung either way: from A to B (as drawn) or from B to A (turned).
    Gated,
    // Passes from A to B only.
    Flap,
    // Passes both ways at all times.
    TwoWay,
}

// The state of a reach, its kind inside it: in service, or shut for works and then of the kind that it goes back to.
#[derive(Clone, Copy, PartialEq, Eq)]
pub enum State {
    InService(Kind),
    // Passes no water, and has no byte in a setting; it keeps its number.
    Shut(Kind),
}

// One record of the reach table: a state and two ends, A and B, which are basin numbers.
#[derive(Clone, Copy, PartialEq, Eq)]
pub struct Reach {
    pub state: State,
    pub a: u16,
    pub b: u16,
}

// The basins and the reaches of a network, counted: what the reader of a network file and the call that contracts return.
#[derive(Clone, Copy)]
pub struct Counts {
    pub basins: u16,
    pub reaches: usize,
}

// The refusals that return a number only. specs/Replies.antt gives each its number in document 01.
#[derive(Clone, Copy, PartialEq, Eq)]
pub enum Refusal {
    BasinCount,
    TooManyReaches,
    EndOutOfRange,
    Truncated,
    UnknownKind,
    TrailingBytes,
    ShortBuffer,
    BadSetting,
    LastPlan,
}

impl From<Refusal> for u8 {
    ghost from_gives = { λ r n. n ≡ refusal_number r };

    // The number of a refusal.
    fn from(r: Refusal) -> Self {
        match r {
            Refusal::BasinCount => 1,
            Refusal::TooManyReaches => 2,
            Refusal::EndOutOfRange => 3,
            Refusal::Truncated => 4,
            Refusal::UnknownKind => 5,
            Refusal::TrailingBytes => 6,
            Refusal::ShortBuffer => 7,
            Refusal::BadSetting => 8,
            Refusal::LastPlan => 11,
        }
    }
}
