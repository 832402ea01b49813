// What a call answers where it refuses, and the payoffs that both games answer where they do not. specs/Refusals.antt says what each refusal means, and
// specs/Outcomes.antt what a result means to a caller.
#![tactic(auto)]

ghost use Rattle.std.specs.Prelude.{◌≡◌};
ghost use Rattle.refusals.specs.Outcomes.{number, number_of};

// Why a call is refused, in the order of the checks. Its number is the one that C sees; 0 is an accepted call.
#[derive(Clone, Copy, Debug, PartialEq, Eq)]
pub enum Refusal {
    Game = 1,
    Seats,
    Tree,
    Memory,
    Seat,
    Parts,
    Table,
    Sum,
    Output,
    CardCount,
    Card,
    CardTwice,
    History,
    Closed,
    Illegal,
    NoPublic,
    EarlyPublic,
    EndMark,
    Unreachable,
    Unfit,
}

impl From<Refusal> for u64 {
    ghost from_gives = { λ refusal n. n ≡ number refusal };

    // By `as`, since std has no From of an enum to a number: the cases begin at 1 and count on.
    fn from(refusal: Refusal) -> Self {
        refusal as u64
    }
}

// The number of a result: 0 if the call was accepted.
pub fn number_of<T>(outcome: &Result<T, Refusal>) -> u64
    ensures { result ≡ number_of outcome.now }
{
    match outcome {
        Ok(_) => 0,
        Err(refusal) => u64::from(*refusal),
    }
}

// The payoff of each of count seats, 0 past them. Beside it stand SeatWorths of worths and Values of best_response, and no one struct with a type and a size
// for parameters: that would have no derived Default, which both answer C with at a refusal, and no name for its numbers. The count stands beside an array
// since C's answers have it so.
#[derive(Clone, Copy)]
pub struct Payoffs {
    pub count: usize,
    pub payoffs: [i64; 10],
}
