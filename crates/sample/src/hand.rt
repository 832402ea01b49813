// One hand of Kuhn poker for three seats, through the rules calls.

use crate::failure::Failure;
use crate::words::{Action, Actions, Key};
use kuhn::{KuhnPoker, KuhnState};
use refusals::number_of;

const SEATS: usize = 3;

// What the hand's chance gives each seat: which of the cards left, counted from the lowest.
const OUTCOMES: [usize; 3] = [1, 2, 0];

// What the seats do, turn by turn.
const ACTIONS: [u8; 4] = [
    KuhnPoker::PASS,
    KuhnPoker::BET,
    KuhnPoker::PASS,
    KuhnPoker::BET,
];

// The next seat gets a card.
fn deal(
    rt: &impl Print,
    game: KuhnPoker,
    state: KuhnState,
    outcome: usize,
) -> Result<KuhnState, Failure> {
    let next = game.apply_chance_node(state, outcome)?;
    let seat = state.dealt;
    if let Some(card) = next.cards.get(seat) {
        println!(rt; "seat {seat} gets card {card}")?;
    }
    Ok(next)
}

// The seat whose turn it is acts: its key, what it may do, what it does.
fn act(
    rt: &impl Print,
    game: KuhnPoker,
    state: KuhnState,
    action: u8,
) -> Result<KuhnState, Failure> {
    let seat = state.acted % SEATS;
    let mut key = [0; 21];
    let length = game.information_state_key(state, seat, &mut key)?;
    let key = Key(key.get(..length).unwrap_or(&[]));
    let mut legal = [0; 2];
    let count = game.legal_actions(state, seat, &mut legal)?;
    let legal = Actions(legal.get(..count).unwrap_or(&[]));
    let does = Action(action);
    println!(rt; "seat {seat} has the key{key}, may{legal}, does {does}")?;
    Ok(game.step(state, usize::from(action))?)
}

// Plays the hand and prints it.
pub fn play(rt: &impl Print) -> Result<(), Failure> {
    let game = KuhnPoker { players: SEATS };
    println!(rt; "Kuhn poker: 3 seats, cards 0 to 3, ante 1, bet 1\n")?;
    let mut state = game.initial_state()?;
    for outcome in OUTCOMES {
        state = deal(rt, game, state, outcome)?;
    }
    println!(rt)?;
    for action in ACTIONS {
        state = act(rt, game, state, action)?;
    }
    println!(rt; "\nthe hand is over")?;
    let paid = game.payouts(state)?;
    for (seat, payoff) in paid.payoffs.iter().take(paid.count).enumerate() {
        println!(rt; "seat {seat}: {payoff:+}")?;
    }
    let past = number_of(&game.step(state, 0));
    println!(rt; "\na step more is refused with number {past}")?;
    Ok(())
}
