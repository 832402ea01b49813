// Leduc's positions as a list has them, with the calls on them.

use c_structs::of_leduc;
use c_structs::of_leduc::{LeducMoved, LeducPayoffs, LeducWritten};
use leduc::{LeducPoker, LeducState};
use refusals::Refusal;
use replay::line::WrittenLine;
use replay::list::Numbers;
use replay::rules::{CPosition, Moved, Paid, Written};
use std::io::{self, Write};

#[derive(Clone, Copy)]
pub struct LeducPosition {
    state: LeducState,
}

// 0 for none, else 1 more than the card. Functions, since Option is not ours to give a From that only the lists know.
fn number_of(public: Option<u8>) -> u64 {
    public.map_or(0, |card| u64::from(card) + 1)
}

fn public_of(number: u64) -> Option<u8> {
    let card = number.checked_sub(1)?;
    u8::try_from(card % 256).ok()
}

impl LeducPosition {
    // A position from C's. C has one byte for no public card and for card 255, which is in no deck: where that one was handed in, it is the one that comes back.
    fn with(&self, position: of_leduc::LeducPosition) -> Self {
        let mut state = LeducState::from(position);
        if self.state.public == Some(of_leduc::NONE) && position.public == of_leduc::NONE {
            state.public = Some(of_leduc::NONE);
        }
        LeducPosition { state }
    }

    // What C is answered by a call on this position.
    fn moved(&self, outcome: Result<LeducState, Refusal>) -> Moved<Self> {
        let LeducMoved { refusal, position } = LeducMoved::of(self.state, outcome);
        let position = self.with(position);
        Moved { refusal, position }
    }

    fn written(&self, outcome: Result<usize, Refusal>) -> Written<Self> {
        let LeducWritten {
            refusal,
            position,
            count,
        } = LeducWritten::of(self.state, outcome);
        let position = self.with(position);
        Written {
            refusal,
            position,
            count,
        }
    }
}

impl CPosition for LeducPosition {
    // Nothing.
    fn of_game(_record: &mut Numbers) -> Self {
        let state = LeducState::new();
        LeducPosition { state }
    }

    // The cards' length, the public card, the rounds' lengths, the number that fills the arrays, the cards and the rounds.
    fn of_record(record: &mut Numbers) -> Self {
        let dealt = record.size();
        let public = public_of(record.number());
        let acted1 = record.size();
        let acted2 = record.size();
        let fill = record.byte();
        let cards = record.filled(fill, 0);
        let round1: [u8; 4] = record.filled(fill, 2);
        let round2: [u8; 4] = record.filled(fill, 6);
        let mut history = [0; 8];
        history[..4].copy_from_slice(&round1);
        history[4..].copy_from_slice(&round2);
        let state = LeducState {
            cards,
            dealt,
            public,
            history,
            acted1,
            acted2,
        };
        LeducPosition { state }
    }

    fn without_public(&self) -> Option<Self> {
        let mut state = self.state;
        state.public = None;
        Some(LeducPosition { state })
    }

    fn last_seat(&self) -> usize {
        LeducPoker::SEATS
    }

    fn last_outcome(&self) -> usize {
        usize::from(LeducPoker::DECK)
    }

    // The three actions, and four that are none: 257 and 258 would be CALL and RAISE if cut to a byte.
    fn actions(&self) -> &'static [usize] {
        &[0, 1, 2, 3, 257, 258, usize::MAX]
    }

    fn initial_state(&self) -> Moved<Self> {
        self.moved(Ok(LeducPoker::initial_state()))
    }

    fn legal_actions(&self, seat: usize, out: &mut [u8]) -> Written<Self> {
        self.written(LeducPoker::legal_actions(self.state, seat, out))
    }

    fn apply_chance_node(&self, outcome: usize) -> Moved<Self> {
        self.moved(LeducPoker::apply_chance_node(self.state, outcome))
    }

    fn step(&self, action: usize) -> Moved<Self> {
        self.moved(LeducPoker::step(self.state, action))
    }

    fn information_state_key(&self, seat: usize, out: &mut [u8]) -> Written<Self> {
        self.written(LeducPoker::information_state_key(self.state, seat, out))
    }

    fn payouts(&self) -> Paid<Self> {
        let outcome = LeducPoker::payouts(self.state);
        let LeducPayoffs {
            refusal,
            position,
            count,
            payoffs,
        } = LeducPayoffs::of(self.state, outcome);
        let position = self.with(position);
        Paid {
            refusal,
            position,
            count,
            payoffs,
        }
    }

    fn validate_decoded_state(&self, done: u64) -> Moved<Self> {
        let outcome = LeducPoker::validate_decoded_state(self.state, done);
        self.moved(outcome.and(Ok(self.state)))
    }

    fn mix(&self, line: &mut WrittenLine) {
        line.mix_all(&self.state.cards);
        line.mix_length(self.state.dealt);
        line.mix_number(number_of(self.state.public));
        line.mix_all(&self.state.history);
        line.mix_length(self.state.acted1);
        line.mix_length(self.state.acted2);
    }

    fn say<O: Write>(&self, line: &WrittenLine, out: &mut O) -> io::Result<()> {
        line.say_list(out, &self.state.cards, self.state.dealt)?;
        line.say(out, number_of(self.state.public))?;
        line.say_list(out, &self.state.history[..4], self.state.acted1)?;
        line.say_list(out, &self.state.history[4..], self.state.acted2)
    }
}
