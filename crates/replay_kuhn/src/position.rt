// Kuhn's positions as a list has them, with the calls on them.

use c_structs::of_kuhn;
use c_structs::of_kuhn::{KuhnMoved, KuhnPayoffs, KuhnWritten};
use kuhn::{KuhnPoker, KuhnState};
use refusals::Refusal;
use replay::line::WrittenLine;
use replay::list::Numbers;
use replay::rules::{CPosition, Moved, Paid, Written};
use std::io::{self, Write};

#[derive(Clone, Copy)]
pub struct KuhnPosition {
    game: KuhnPoker,
    state: KuhnState,
}

impl KuhnPosition {
    // A position of the same game, from C's.
    fn with(&self, position: of_kuhn::KuhnPosition) -> Self {
        KuhnPosition {
            game: self.game,
            state: KuhnState::from(position),
        }
    }

    // What C is answered by a call on this position.
    fn moved(&self, outcome: Result<KuhnState, Refusal>) -> Moved<Self> {
        let KuhnMoved { refusal, position } = KuhnMoved::of(self.state, outcome);
        let position = self.with(position);
        Moved { refusal, position }
    }

    fn written(&self, outcome: Result<usize, Refusal>) -> Written<Self> {
        let KuhnWritten {
            refusal,
            position,
            count,
        } = KuhnWritten::of(self.state, outcome);
        let position = self.with(position);
        Written {
            refusal,
            position,
            count,
        }
    }
}

impl CPosition for KuhnPosition {
    // SEATS.
    fn of_game(record: &mut Numbers) -> Self {
        let game = KuhnPoker {
            players: record.size(),
        };
        KuhnPosition {
            game,
            state: KuhnState::new(),
        }
    }

    // SEATS, both lengths, the number that fills the arrays, the cards and the history.
    fn of_record(record: &mut Numbers) -> Self {
        let game = KuhnPoker {
            players: record.size(),
        };
        let dealt = record.size();
        let acted = record.size();
        let fill = record.byte();
        let cards = record.filled(fill, 0);
        let history = record.filled(fill, 10);
        let state = KuhnState {
            cards,
            dealt,
            history,
            acted,
        };
        KuhnPosition { game, state }
    }

    fn last_seat(&self) -> usize {
        self.game.players.min(12)
    }

    fn last_outcome(&self) -> usize {
        self.game.players.min(12) + 1
    }

    fn actions(&self) -> &'static [usize] {
        &[0, 1, 2, 256, usize::MAX]
    }

    fn initial_state(&self) -> Moved<Self> {
        self.moved(self.game.initial_state())
    }

    fn legal_actions(&self, seat: usize, out: &mut [u8]) -> Written<Self> {
        self.written(self.game.legal_actions(self.state, seat, out))
    }

    fn apply_chance_node(&self, outcome: usize) -> Moved<Self> {
        self.moved(self.game.apply_chance_node(self.state, outcome))
    }

    fn step(&self, action: usize) -> Moved<Self> {
        self.moved(self.game.step(self.state, action))
    }

    fn information_state_key(&self, seat: usize, out: &mut [u8]) -> Written<Self> {
        self.written(self.game.information_state_key(self.state, seat, out))
    }

    fn payouts(&self) -> Paid<Self> {
        let outcome = self.game.payouts(self.state);
        let KuhnPayoffs {
            refusal,
            position,
            count,
            payoffs,
        } = KuhnPayoffs::of(self.state, outcome);
        let position = self.with(position);
        Paid {
            refusal,
            position,
            count,
            payoffs,
        }
    }

    fn validate_decoded_state(&self, done: u64) -> Moved<Self> {
        let outcome = self.game.validate_decoded_state(self.state, done);
        self.moved(outcome.and(Ok(self.state)))
    }

    fn mix(&self, line: &mut WrittenLine) {
        line.mix_all(&self.state.cards);
        line.mix_length(self.state.dealt);
        line.mix_all(&self.state.history);
        line.mix_length(self.state.acted);
    }

    fn say<O: Write>(&self, line: &WrittenLine, out: &mut O) -> io::Result<()> {
        line.say_list(out, &self.state.cards, self.state.dealt)?;
        line.say_list(out, &self.state.history, self.state.acted)
    }
}
