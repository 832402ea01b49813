// The rules calls on a position, of either game: what a record asks for, and the line that answers it.
// Every field of an answer goes into the checksum, as C has it, and the words are what was accepted.

use crate::line::{Line, WrittenLine};
use crate::list::{Numbers, Record};
use crate::memory::{first, least, output, untouched_bytes};
use refusals::{Payoffs, Refusal, number_of};
use std::alloc::{AllocError, Global};
use std::io::{self, ErrorKind, Write};

// How many bytes the output has; a call is lent the first of them.
const ROOM: usize = 32;

// The seats and outcomes that are asked for besides those from 0 on.
const FAR: [usize; 2] = [256, usize::MAX];

// What a start, a deal, a step or a saved-position check answered: the refusal number, and the position that came back.
#[derive(Clone, Copy)]
pub struct Moved<P> {
    pub refusal: u64,
    pub position: P,
}

// What a legal list or a key answered: these, and how many bytes were written.
#[derive(Clone, Copy)]
pub struct Written<P> {
    pub refusal: u64,
    pub position: P,
    pub count: u64,
}

// What the payoffs answered: these, and how many seats are paid.
#[derive(Clone, Copy)]
pub struct Paid<P> {
    pub refusal: u64,
    pub position: P,
    pub count: u64,
    pub payoffs: [i64; 10],
}

// A game's position, with the rules calls on it. Each answers what C is answered, so what comes back after a refusal is the library's too.
pub trait CPosition: Copy {
    // The position without cards of the game that a record names.
    fn of_game(record: &mut Numbers) -> Self;

    // The position that a record has.
    fn of_record(record: &mut Numbers) -> Self;

    // The same without the public card, for a game that has one; a saved position is checked once more so.
    fn without_public(&self) -> Option<Self> {
        None
    }

    // The last seat and the last outcome that are asked for in turn from 0 on, one past those of the game, and all actions that are.
    fn last_seat(&self) -> usize;

    fn last_outcome(&self) -> usize;

    fn actions(&self) -> &'static [usize];

    fn initial_state(&self) -> Moved<Self>;

    fn legal_actions(&self, seat: usize, out: &mut [u8]) -> Written<Self>;

    fn apply_chance_node(&self, outcome: usize) -> Moved<Self>;

    fn step(&self, action: usize) -> Moved<Self>;

    fn information_state_key(&self, seat: usize, out: &mut [u8]) -> Written<Self>;

    fn payouts(&self) -> Paid<Self>;

    fn validate_decoded_state(&self, done: u64) -> Moved<Self>;

    // Every field in the checksum.
    fn mix(&self, line: &mut WrittenLine);

    // The words of the position up to its lengths.
    fn say<O: Write>(&self, line: &WrittenLine, out: &mut O) -> io::Result<()>;
}

// The payoff as a byte of the checksum: 128 more than it is.
fn code(payoff: i64) -> u8 {
    u8::try_from(payoff.saturating_add(128)).unwrap_or(u8::MAX)
}

// The answers to one record: the position that all its calls are made on, and the line so far.
#[derive(Clone, Copy)]
struct Answers<P: CPosition> {
    position: P,
    line: WrittenLine,
}

impl<P: CPosition> Answers<P> {
    // A call's refusal number goes into the checksum, and then the position that came back.
    fn mix(&mut self, refusal: u64, position: P) {
        self.line.mix_number(refusal);
        position.mix(&mut self.line);
    }

    // A start, a deal or a step.
    fn say_moved<O: Write>(
        &mut self,
        out: &mut O,
        letter: char,
        answer: Moved<P>,
    ) -> io::Result<()> {
        let Moved { refusal, position } = answer;
        self.line.say_call(out, letter, refusal)?;
        if refusal == 0 {
            position.say(&self.line, out)?;
        }
        self.mix(refusal, position);
        Ok(())
    }

    // A legal list or a key, which the call wrote to the front of the output: all of that goes into the checksum.
    fn say_written<O: Write>(
        &mut self,
        out: &mut O,
        letter: char,
        answer: Written<P>,
        bytes: &[u8],
    ) -> io::Result<()> {
        let Written {
            refusal,
            position,
            count,
        } = answer;
        self.line.say_call(out, letter, refusal)?;
        if refusal == 0 {
            // By `as`: both have 64 bits, and usize has no From of u64.
            self.line.say_list(out, bytes, count as usize)?;
        }
        self.mix(refusal, position);
        self.line.mix_number(count);
        self.line.mix_all(bytes);
        Ok(())
    }

    fn say_paid<O: Write>(&mut self, out: &mut O, answer: Paid<P>) -> io::Result<()> {
        let Paid {
            refusal,
            position,
            count,
            payoffs,
        } = answer;
        self.line.say_call(out, 'P', refusal)?;
        if refusal == 0 {
            self.line.say(out, count)?;
            // By `as`: both have 64 bits, and usize has no From of u64.
            for payoff in payoffs.iter().take(count as usize) {
                self.line.say(out, *payoff)?;
            }
        }
        self.mix(refusal, position);
        self.line.mix_number(count);
        for payoff in payoffs {
            self.line.mix(code(payoff));
        }
        Ok(())
    }

    // A call that writes, for each seat that is asked for.
    fn ask_seats<O: Write, C: Fn(&P, usize, &mut [u8]) -> Written<P>>(
        &mut self,
        out: &mut O,
        letter: char,
        room: usize,
        call: C,
    ) -> io::Result<()>
        requires { C.IsAlwaysCallable call }
    {
        for seat in (0..=self.position.last_seat()).chain(FAR) {
            let mut bytes = [0; ROOM];
            untouched_bytes(&mut bytes);
            let lent = least(room, ROOM);
            let answer = call(&self.position, seat, &mut bytes[..lent]);
            self.say_written(out, letter, answer, &bytes)?;
        }
        Ok(())
    }

    // The family of rules calls: the legal lists, the deals, the steps, the keys and the payoff.
    fn say_family<O: Write>(&mut self, out: &mut O, room: usize) -> io::Result<()> {
        self.ask_seats(out, 'L', room, P::legal_actions)?;
        for outcome in (0..=self.position.last_outcome()).chain(FAR) {
            let answer = self.position.apply_chance_node(outcome);
            self.say_moved(out, 'D', answer)?;
        }
        for action in self.position.actions() {
            let answer = self.position.step(*action);
            self.say_moved(out, 'S', answer)?;
        }
        self.ask_seats(out, 'K', room, P::information_state_key)?;
        let answer = self.position.payouts();
        self.say_paid(out, answer)
    }

    // A saved position, with each end mark. The words have the numbers of the marks 0 and 1.
    fn say_saved<O: Write>(&mut self, out: &mut O) -> io::Result<()> {
        for done in [0, 1, 2, u64::MAX] {
            let answer = self.position.validate_decoded_state(done);
            if done < 2 {
                self.line.say(out, answer.refusal)?;
            }
            self.mix(answer.refusal, answer.position);
        }
        Ok(())
    }
}

// What a record asks for.
#[derive(Clone, Copy)]
enum Asked {
    Start,
    Family,
    Saved,
}

// What the code of a record asks for, and whether it is answered in words or by a checksum alone. The list has codes, since all of it is numbers.
fn asked_by(code: u64) -> (Asked, bool) {
    match code {
        0 => (Asked::Start, true),
        1 => (Asked::Family, true),
        2 => (Asked::Family, false),
        3 => (Asked::Saved, true),
        _ => (Asked::Saved, false),
    }
}

// Writes the line of a record.
pub fn write_answer<P: CPosition, O: Write>(mut record: Numbers, out: &mut O) -> io::Result<()> {
    let (asked, shown) = asked_by(record.number());
    let line = WrittenLine::new(shown);
    match asked {
        Asked::Start => {
            let position = P::of_game(&mut record);
            let mut answers = Answers { position, line };
            answers.say_moved(out, 'I', position.initial_state())?;
            answers.line.end(out)
        }
        Asked::Family => {
            let room = record.size();
            let position = P::of_record(&mut record);
            let mut answers = Answers { position, line };
            answers.say_family(out, room)?;
            answers.line.end(out)
        }
        Asked::Saved => {
            let position = P::of_record(&mut record);
            let mut answers = Answers { position, line };
            answers.say_saved(out)?;
            if let Some(hidden) = position.without_public() {
                answers.position = hidden;
                answers.say_saved(out)?;
            }
            answers.line.end(out)
        }
    }
}

// What a refused payoff call pays.
const NOTHING_PAID: Payoffs = Payoffs {
    count: 0,
    payoffs: [0; 10],
};

// A game's position, with the rules calls on it, each as the game's own library answers it. After a refusal the position is the one handed in.
pub trait Position: Sized + Drop {
    // The position without cards of the game that a record names.
    fn of_game(record: &mut Record) -> io::Result<Self>;

    // The position that a record has.
    fn of_record(alloc: Global, record: &mut Record) -> io::Result<Self>;

    // The same without the public card, for a game that has one; a saved position is checked once more so.
    fn without_public(&self) -> Option<Self> {
        // A game without one has none to hide.
        None
    }

    // The last seat and the last outcome that are asked for in turn from 0 on, one past those of the game, and all actions that are.
    fn last_seat(&self) -> usize;

    fn last_outcome(&self) -> usize;

    fn actions(&self) -> &'static [usize];

    fn initial_state(&self) -> Result<Self, Refusal>;

    fn legal_actions(&self, seat: usize, out: &mut [u8]) -> Result<usize, Refusal>;

    fn apply_chance_node(&self, outcome: usize) -> Result<Self, Refusal>;

    fn step(&self, action: usize) -> Result<Self, Refusal>;

    fn information_state_key(&self, seat: usize, out: &mut [u8]) -> Result<usize, Refusal>;

    fn payouts(&self) -> Result<Payoffs, Refusal>;

    fn validate_decoded_state(&self, done: u64) -> Result<(), Refusal>;

    // Every field in the checksum.
    fn mix(&self, line: &mut Line);

    // The words of the position up to its lengths.
    fn say(&self, line: &mut Line) -> Result<(), AllocError>;
}

// The answers to one record whose line is kept: the position that all its calls are made on, and the line so far.
#[derive(Drop)]
struct KeptAnswers<P: Position> {
    position: P,
    line: Line,
}

impl<P: Position> KeptAnswers<P> {
    // A call's refusal number goes into the checksum, and then the position.
    fn mix<T>(&mut self, answer: &Result<T, Refusal>) {
        self.line.mix_number(number_of(answer));
        self.position.mix(&mut self.line);
    }

    // A start, a deal or a step: the new position, or the one handed in.
    fn say_moved(&mut self, letter: char, answer: Result<P, Refusal>) -> Result<(), AllocError> {
        self.line.say_call(letter, &answer)?;
        match &answer {
            Ok(next) => {
                self.line.mix_number(number_of(&answer));
                next.mix(&mut self.line);
                next.say(&mut self.line)?;
            }
            Err(_) => self.mix(&answer),
        }
        Ok(())
    }

    // A legal list or a key, which the call wrote to the front of the output: all of that goes into the checksum.
    fn say_written(
        &mut self,
        letter: char,
        answer: Result<usize, Refusal>,
        out: &[u8],
    ) -> Result<(), AllocError> {
        self.line.say_call(letter, &answer)?;
        let count = answer.unwrap_or(0);
        if answer.is_ok() {
            self.line.say_list(first(out, count))?;
        }
        self.mix(&answer);
        self.line.mix_length(count);
        self.line.mix_all(out);
        Ok(())
    }

    fn say_paid(&mut self, answer: Result<Payoffs, Refusal>) -> Result<(), AllocError> {
        self.line.say_call('P', &answer)?;
        let paid = answer.unwrap_or(NOTHING_PAID);
        if answer.is_ok() {
            self.line.say(paid.count)?;
            for payoff in paid.payoffs.iter().take(paid.count) {
                self.line.say(*payoff)?;
            }
        }
        self.mix(&answer);
        self.line.mix_length(paid.count);
        for payoff in paid.payoffs {
            self.line.mix(code(payoff));
        }
        Ok(())
    }

    // A call that writes, for each seat that is asked for.
    fn ask_seats<C: Fn(&P, usize, &mut [u8]) -> Result<usize, Refusal>>(
        &mut self,
        alloc: Global,
        letter: char,
        room: usize,
        call: C,
    ) -> Result<(), AllocError>
        requires { C.IsAlwaysCallable call }
    {
        for seat in (0..=self.position.last_seat()).chain(FAR) {
            let mut out = output(alloc, ROOM)?;
            let lent = least(room, ROOM);
            let answer = call(&self.position, seat, &mut out[..lent]);
            self.say_written(letter, answer, &out)?;
        }
        Ok(())
    }

    // The family of rules calls: the legal lists, the deals, the steps, the keys and the payoff.
    fn say_family(&mut self, alloc: Global, room: usize) -> Result<(), AllocError> {
        self.ask_seats(alloc, 'L', room, P::legal_actions)?;
        for outcome in (0..=self.position.last_outcome()).chain(FAR) {
            let answer = self.position.apply_chance_node(outcome);
            self.say_moved('D', answer)?;
        }
        for action in self.position.actions() {
            let answer = self.position.step(*action);
            self.say_moved('S', answer)?;
        }
        self.ask_seats(alloc, 'K', room, P::information_state_key)?;
        let answer = self.position.payouts();
        self.say_paid(answer)
    }

    // A saved position, with each end mark. The words have the numbers of the marks 0 and 1.
    fn say_saved(&mut self) -> Result<(), AllocError> {
        for done in [0, 1, 2, u64::MAX] {
            let answer = self.position.validate_decoded_state(done);
            if done < 2 {
                self.line.say(number_of(&answer))?;
            }
            self.mix(&answer);
        }
        Ok(())
    }
}

// The line of a record. A code that is none is refused, and so is a record that has something else where a number is due.
pub fn answer<P: Position>(alloc: Global, record: &mut Record) -> io::Result<Line> {
    let code = record.number::<u8>()?;
    if 4 < code {
        return Err(ErrorKind::InvalidData.into());
    }
    let (asked, shown) = asked_by(u64::from(code));
    let line = Line::new(alloc, shown);
    match asked {
        Asked::Start => {
            let position = P::of_game(record)?;
            let start = position.initial_state();
            let mut answers = KeptAnswers { position, line };
            answers.say_moved('I', start)?;
            Ok(answers.line)
        }
        Asked::Family => {
            let room = record.number::<usize>()?;
            let position = P::of_record(alloc, record)?;
            let mut answers = KeptAnswers { position, line };
            answers.say_family(alloc, room)?;
            Ok(answers.line)
        }
        Asked::Saved => {
            let position = P::of_record(alloc, record)?;
            let hidden = position.without_public();
            let mut answers = KeptAnswers { position, line };
            answers.say_saved()?;
            if let Some(position) = hidden {
                answers.position = position;
                answers.say_saved()?;
            }
            Ok(answers.line)
        }
    }
}
