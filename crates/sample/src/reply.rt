// A table of Kuhn poker for two seats: what it is worth, and the best reply to it.

use crate::failure::Failure;
use crate::words::{Action, Actions};
use kuhn::KuhnPoker;
use std::io;

const SEATS: usize = 2;

// The bytes that the listing has for each of the 12 sets of both seats.
const RECORD: usize = 24;

// One part in each set, for PASS.
const PARTS: usize = 1;

const PASSES: [u8; 24] = [
    1, 0, 1, 0, 1, 0, 1, 0, 1, 0, 1, 0, 1, 0, 1, 0, 1, 0, 1, 0, 1, 0, 1, 0,
];

// What seat 0 does in a set of its own, by the set's record and the reply's parts for PASS and BET.
fn say_set(rt: &impl Print, record: &[u8], parts: &[u8]) -> io::Result<()> {
    // The seat, the key's length and the key: the seat, the card and the actions so far.
    let [0, length, _, card, rest @ ..] = record else {
        return Ok(());
    };
    let action = Action(match parts {
        [0, ..] => KuhnPoker::BET,
        _ => KuhnPoker::PASS,
    });
    let acted = usize::from(*length).saturating_sub(2);
    let history = rest.get(..acted).unwrap_or(&[]);
    if history.is_empty() {
        println!(rt; "  card {card}, first action of the hand: {action}")
    } else {
        let history = Actions(history);
        println!(rt; "  card {card}, after{history}: {action}")
    }
}

// Shows the table by which both seats always pass, and the best reply to it.
pub fn show(rt: &impl Print) -> Result<(), Failure> {
    let mut work = [0; 696];
    println!(rt;
        "Kuhn poker: 2 seats, cards 0 to 2, and a table by which both seats always PASS\n"
    )?;
    println!(rt; "There are 6 units, one for each deal, so a worth of 6 is one chip a hand.")?;
    let table = PASSES;
    let [first, second, ..] = worths::worths(
        KuhnPoker::NUMBER,
        SEATS,
        &mut work,
        PARTS,
        &table,
    )?.worths;
    println!(rt; "The table is worth {first} to seat 0 and {second} to seat 1.")?;
    let mut replies = [[0; 24]; SEATS];
    for (seat, reply) in replies.iter_mut().enumerate() {
        let best = best_reply::best_reply(
            KuhnPoker::NUMBER,
            SEATS,
            &mut work,
            seat,
            PARTS,
            &table,
            reply,
        )?;
        println!(rt; "The best reply of seat {seat} is worth {best} to that seat.")?;
    }
    let mut sets = [0; 288];
    listing::enumerate_infosets(KuhnPoker::NUMBER, SEATS, &work, &mut sets)?;
    println!(rt; "\nWhat the best reply of seat 0 does in each of its sets:")?;
    for (record, parts) in sets.chunks(RECORD).zip(replies[0].chunks(2)) {
        say_set(rt, record, parts)?;
    }
    Ok(())
}
