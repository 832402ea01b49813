// Leduc's position and answers as C has them, and the conversions. The public card is a byte, NONE for none; all else is field by field that of crate leduc.
// The position and the answers are kept beside those of Rattle for the reasons that of_kuhn.rt gives.
ghost use Rattle.std.specs.Prelude.{◌≡◌};
ghost use Rattle.refusals.specs.Outcomes.{moved_by, written_by, paid_by};
ghost use Rattle.c_structs.specs.Leduc.{state_of, position_of, moved_of, written_of, payoffs_of};

use leduc::LeducState;
use refusals::{Payoffs, Refusal, number_of};

// The byte of no public card. It is in no deck, so every card of a game has a byte of its own.
pub const NONE: u8 = 255;

// C's interface has lengths beside arrays, and a byte for no card, since an Option does not cross.
// A position.
#[repr(C)]
#[derive(Clone, Copy)]
pub struct LeducPosition {
    pub cards: [u8; 2],
    pub dealt: u64,
    pub public: u8,
    pub history: [u8; 8],
    pub acted1: u64,
    pub acted2: u64,
}

// The way in: what the calls of crate leduc take. Each byte of a public card comes back by the way out.
impl From<LeducPosition> for LeducState {
    ghost from_gives = { λ position state. state ≡ state_of position };

    fn from(position: LeducPosition) -> LeducState {
        let LeducPosition {
            cards,
            dealt,
            public,
            history,
            acted1,
            acted2,
        } = position;
        // By `as`: std has no From for u64 to usize, and a TryFrom would answer an error that cannot come.
        LeducState {
            cards,
            dealt: dealt as usize,
            public: (public != NONE).then_some(public),
            history,
            acted1: acted1 as usize,
            acted2: acted2 as usize,
        }
    }
}

// The way out: a position handed in comes back to the byte. Of public cards 255 alone does not come back by the way in, but as none.
impl From<LeducState> for LeducPosition {
    ghost from_gives = { λ state position. position ≡ position_of state };

    fn from(state: LeducState) -> LeducPosition {
        let LeducState {
            cards,
            dealt,
            public,
            history,
            acted1,
            acted2,
        } = state;
        // By `as`: std has no From for usize to u64.
        LeducPosition {
            cards,
            dealt: dealt as u64,
            public: public.unwrap_or(NONE),
            history,
            acted1: acted1 as u64,
            acted2: acted2 as u64,
        }
    }
}

// What a start, a deal, a step or a saved-position check answers. C's interface has the refusal's number, since an enum does not cross.
#[repr(C)]
#[derive(Clone, Copy)]
pub struct LeducMoved {
    pub refusal: u64,
    pub position: LeducPosition,
}

impl LeducMoved {
    // The answer of a call on a position.
    pub fn of(state: LeducState, outcome: Result<LeducState, Refusal>) -> Self
        ensures { result ≡ moved_of (moved_by state outcome) }
    {
        LeducMoved {
            refusal: number_of(&outcome),
            position: LeducPosition::from(outcome.unwrap_or(state)),
        }
    }
}

// What a legal list or a key answers. C's interface: a number for the refusal, and how many bytes of the output were written.
#[repr(C)]
#[derive(Clone, Copy)]
pub struct LeducWritten {
    pub refusal: u64,
    pub position: LeducPosition,
    pub count: u64,
}

impl LeducWritten {
    // The answer of a call on a position.
    pub fn of(state: LeducState, outcome: Result<usize, Refusal>) -> Self
        ensures { result ≡ written_of (written_by state outcome) }
    {
        LeducWritten {
            refusal: number_of(&outcome),
            position: LeducPosition::from(state),
            // By `as`, as the lengths of a position.
            count: outcome.unwrap_or(0) as u64,
        }
    }
}

// What a payoff answers. C's interface: a number for the refusal, and a count beside an array.
#[repr(C)]
#[derive(Clone, Copy)]
pub struct LeducPayoffs {
    pub refusal: u64,
    pub position: LeducPosition,
    pub count: u64,
    pub payoffs: [i64; 10],
}

impl LeducPayoffs {
    // The answer of a call on a position.
    pub fn of(state: LeducState, outcome: Result<Payoffs, Refusal>) -> Self
        ensures { result ≡ payoffs_of (paid_by state outcome) }
    {
        let refusal = number_of(&outcome);
        let none = Payoffs {
            count: 0,
            payoffs: [0; 10],
        };
        let Payoffs { count, payoffs } = outcome.unwrap_or(none);
        LeducPayoffs {
            refusal,
            position: LeducPosition::from(state),
            // By `as`, as the lengths of a position.
            count: count as u64,
            payoffs,
        }
    }
}
