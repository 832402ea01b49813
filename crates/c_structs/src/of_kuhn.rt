// Kuhn's position and answers as C has them, field by field those of crate kuhn, and the conversions. The position is kept beside KuhnState, since the
// header gives it another name and numbers of 64 bits, and the answers are kept beside Leduc's, since a generic struct cannot cross to C.
ghost use Rattle.std.specs.Prelude.{◌≡◌};
ghost use Rattle.refusals.specs.Outcomes.{moved_by, written_by, paid_by};
ghost use Rattle.c_structs.specs.Kuhn.{state_of, position_of, moved_of, written_of, payoffs_of};

use kuhn::KuhnState;
use refusals::{Payoffs, Refusal, number_of};

// C's interface has lengths beside arrays.
// A position.
#[repr(C)]
#[derive(Clone, Copy)]
pub struct KuhnPosition {
    pub cards: [u8; 10],
    pub dealt: u64,
    pub history: [u8; 19],
    pub acted: u64,
}

// The way in: what the calls of crate kuhn take.
impl From<KuhnPosition> for KuhnState {
    ghost from_gives = { λ position state. state ≡ state_of position };

    fn from(position: KuhnPosition) -> KuhnState {
        let KuhnPosition {
            cards,
            dealt,
            history,
            acted,
        } = position;
        // By `as`: std has no From for u64 to usize, and a TryFrom would answer an error that cannot come.
        KuhnState {
            cards,
            dealt: dealt as usize,
            history,
            acted: acted as usize,
        }
    }
}

// The way out: a position handed in comes back to the byte.
impl From<KuhnState> for KuhnPosition {
    ghost from_gives = { λ state position. position ≡ position_of state };

    fn from(state: KuhnState) -> KuhnPosition {
        let KuhnState {
            cards,
            dealt,
            history,
            acted,
        } = state;
        // By `as`: std has no From for usize to u64.
        KuhnPosition {
            cards,
            dealt: dealt as u64,
            history,
            acted: acted as u64,
        }
    }
}

// What a start, a deal, a step or a saved-position check answers. C's interface has the refusal's number, since an enum does not cross.
#[repr(C)]
#[derive(Clone, Copy)]
pub struct KuhnMoved {
    pub refusal: u64,
    pub position: KuhnPosition,
}

impl KuhnMoved {
    // The answer of a call on a position.
    pub fn of(state: KuhnState, outcome: Result<KuhnState, Refusal>) -> Self
        ensures { result ≡ moved_of (moved_by state outcome) }
    {
        KuhnMoved {
            refusal: number_of(&outcome),
            position: KuhnPosition::from(outcome.unwrap_or(state)),
        }
    }
}

// What a legal list or a key answers. C's interface: a number for the refusal, and how many bytes of the output were written.
#[repr(C)]
#[derive(Clone, Copy)]
pub struct KuhnWritten {
    pub refusal: u64,
    pub position: KuhnPosition,
    pub count: u64,
}

impl KuhnWritten {
    // The answer of a call on a position.
    pub fn of(state: KuhnState, outcome: Result<usize, Refusal>) -> Self
        ensures { result ≡ written_of (written_by state outcome) }
    {
        KuhnWritten {
            refusal: number_of(&outcome),
            position: KuhnPosition::from(state),
            // By `as`, as the lengths of a position.
            count: outcome.unwrap_or(0) as u64,
        }
    }
}

// What a payoff answers. C's interface: a number for the refusal, and a count beside an array.
#[repr(C)]
#[derive(Clone, Copy)]
pub struct KuhnPayoffs {
    pub refusal: u64,
    pub position: KuhnPosition,
    pub count: u64,
    pub payoffs: [i64; 10],
}

impl KuhnPayoffs {
    // The answer of a call on a position.
    pub fn of(state: KuhnState, outcome: Result<Payoffs, Refusal>) -> Self
        ensures { result ≡ payoffs_of (paid_by state outcome) }
    {
        let refusal = number_of(&outcome);
        let none = Payoffs {
            count: 0,
            payoffs: [0; 10],
        };
        let Payoffs { count, payoffs } = outcome.unwrap_or(none);
        KuhnPayoffs {
            refusal,
            position: KuhnPosition::from(state),
            // By `as`, as the lengths of a position.
            count: count as u64,
            payoffs,
        }
    }
}
