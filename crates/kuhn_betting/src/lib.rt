// The betting: what depends on the history alone.
#![tactic(auto)]

ghost use Rattle.std.specs.Prelude.{◌≡◌, ◌≢◌, ℕ, ◌≤◌, ◌<◌, length, get_or, IfNone, IfSome};
ghost use Rattle.kuhn_rules.specs.Rules.{BET, ended, overrun, bets};
ghost use Rattle.kuhn_rules.specs.Reached.{unknown};

// The actions. They stay bytes, and no enum: positions, keys and legal lists cross to C as bytes, and a history that is handed in may hold any.
pub const PASS: u8 = 0;

pub const BET: u8 = 1;

// The place of the first bet.
pub fn first_bet(history: &[u8]) -> Option<usize>
    ensures none { IfNone result ((k : ℕ) → k < length history.now → get_or history.now k 0 ≢ BET) }
    ensures within { IfSome result (λ b. b < length history.now) }
    ensures before { IfSome result (λ b. (k : ℕ) → k < b → get_or history.now k 0 ≢ BET) }
    ensures found { IfSome result (λ b. get_or history.now b 0 ≡ BET) }
{
    history.iter().position(|action| *action == BET)
}

// n is how many seats play, here and in kuhn_money and kuhn_positions. Kept as a number of which each function asks that it is 1 at least: a type for it would
// be made and taken apart at each call, and say no more.

// Whether the hand has ended: after n passes, or n - 1 actions after the first bet.
pub fn is_terminal(history: &[u8], n: usize) -> bool
    requires { 1 ≤ n }
    ensures { result ≡ ended n history.now }
{
    match first_bet(history) {
        Some(b) => history.len() - b == n,
        None => history.len() == n,
    }
}

// Whether an action stands after the hand ended.
pub fn past_the_end(history: &[u8], n: usize) -> bool
    requires { 1 ≤ n }
    ensures { result ≡ overrun n history.now }
{
    match first_bet(history) {
        Some(b) => n <= b || n < history.len() - b,
        None => n < history.len(),
    }
}

// Whether an action is neither a pass nor a bet.
#[tactic(auto, using(kuhn_rules::proofs::Histories::unknown_any))]
pub fn unknown_action(history: &[u8]) -> bool
    ensures { result ≡ unknown history.now }
{
    prelude::any_above(history, usize::from(BET))
}

// Whether a seat has bet: its turns are n places apart, one in each chunk of n actions. By chunks, since `step_by` goes over every place between.
pub fn bet_by(history: &[u8], n: usize, player: usize) -> bool
    requires { 1 ≤ n }
    ensures { result ≡ bets n history.now player }
{
    player < n
        && history
            .chunks(n)
            .any(|turns| turns.get(player) == Some(&BET))
}
