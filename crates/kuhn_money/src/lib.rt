// The money: who stands, who wins, and what each seat pays or gains.
#![tactic(auto)]

ghost use Rattle.std.specs.Prelude.{◌≡◌, not, cond, ◌-◌, ◌≤◌, ◌<◌, pos, neg_ℤ, length};
ghost use Rattle.prelude.specs.Finite.{sum};
ghost use Rattle.kuhn_rules.specs.Rules.{bet-made, stands, contribution};
ghost use Rattle.kuhn_rules.specs.Stakes.{ante, stake, payoffs_of};
ghost use Rattle.kuhn_rules.specs.internal.Highest.{Highest};

use kuhn_betting::{BET, bet_by};

// The stakes.
pub const ANTE: u64 = 1;

pub const STAKE: u64 = 1;

// Whether a seat stands: those who bet do, all if none did.
fn standing(history: &[u8], n: usize, player: usize, quiet: bool) -> bool
    requires { (1 ≤ n) × (quiet ≡ not (bet-made history.now)) }
    ensures { result ≡ stands n history.now player }
{
    quiet || bet_by(history, n, player)
}

// What a seat has paid.
fn contributed(history: &[u8], n: usize, player: usize) -> u64
    requires { 1 ≤ n }
    ensures exact { result ≡ contribution ante stake n history.now player }
    ensures small { result ≤ 2 }
{
    if bet_by(history, n, player) {
        ANTE + STAKE
    } else {
        ANTE
    }
}

// What all seats have paid.
fn pot(history: &[u8], n: usize) -> u64
    requires { n ≤ 10 }
    ensures exact { result ≡ sum n (contribution ante stake n history.now) }
    ensures small { result ≤ 20 }
{
    let mut total = 0;
    for player in 0..n {
        total += contributed(history, n, player);
    }
    total
}

// The highest card among the seats that stand.
fn highest(cards: &[u8], history: &[u8], quiet: bool) -> u8
    requires { quiet ≡ not (bet-made history.now) }
    ensures { Highest (length cards.now) history.now cards.now (length cards.now) result }
{
    let mut top = 0;
    for (player, card) in cards.iter().enumerate() {
        if standing(history, cards.len(), player, quiet) {
            top = top.max(*card);
        }
    }
    top
}

// What a seat gains or loses of a pot.
fn share(total: u64, mine: u64, winner: bool) -> i64
    requires { (mine ≤ total) × (total ≤ 20) }
    ensures { result ≡ cond winner (pos (total - mine)) (neg_ℤ (pos mine)) }
{
    // By `as`, since std has no From between i64 and u64.
    if winner {
        (total - mine) as i64
    } else {
        -(mine as i64)
    }
}

// The payoff of each seat that has a card; 0 past them. A seat wins if it stands, and its card is the highest of those that stand.
pub fn payoffs(cards: &[u8], history: &[u8]) -> [i64; 10]
    requires { length cards.now ≤ 10 }
    ensures { result ≡ payoffs_of (length cards.now) cards.now history.now }
{
    let n = cards.len();
    let total = pot(history, n);
    let quiet = !history.contains(&BET);
    let top = highest(cards, history, quiet);
    let mut out = [0; 10];
    for (player, card) in cards.iter().enumerate() {
        let mine = contributed(history, n, player);
        let winner = standing(history, n, player, quiet) && *card == top;
        out[player] = share(total, mine, winner);
    }
    out
}
