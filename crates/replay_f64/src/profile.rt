// A profile of the list, and the calls on it, each with work memory as it is before a call.

use best_response::ValuesAnswer;
use replay::least;
use replay::line::WrittenLine;
use replay::list::Numbers;
use replay::tree::Tree;
use std::io::{self, Write};

// How many entries a profile has at most.
const ENTRIES: usize = 2209;

// The calls, by their numbers in a record.
#[derive(Clone, Copy)]
pub enum Call {
    BestResponseValue,
    BestResponseValues,
    ProfileValues,
    NashConv,
    Exploitability,
}

const CALLS: [Call; 5] = [
    Call::BestResponseValue,
    Call::BestResponseValues,
    Call::ProfileValues,
    Call::NashConv,
    Call::Exploitability,
];

// The number that asks for all calls.
const ALL: usize = CALLS.len();

// What a line has for a NaN.
const NAN_BITS: u64 = 0x7FF8_0000_0000_0000;

impl Call {
    fn letter(self) -> char {
        match self {
            Call::BestResponseValue => 'B',
            Call::BestResponseValues => 'R',
            Call::ProfileValues => 'P',
            Call::NashConv => 'N',
            Call::Exploitability => 'E',
        }
    }
}

// What a record has: the calls that it asks for, the tree, a seat, how many entries the profile has, and the entries.
#[derive(Clone, Copy)]
pub struct Profile {
    calls: &'static [Call],
    tree: Tree,
    seat: usize,
    count: usize,
    entries: [f64; ENTRIES],
}

// The entries: those of the first patterns, as many as are given, and behind them the same again. Where none is given, all of a line's patterns.
fn entries_of(patterns: &[u64], given: usize) -> [f64; ENTRIES] {
    let mut entries = [0.0; ENTRIES];
    for (place, entry) in entries.iter_mut().enumerate() {
        let pattern = place.checked_rem(given).unwrap_or(place);
        *entry = f64_numbers::float_at(patterns, pattern);
    }
    entries
}

// The bits of a value; a NaN has those of one NaN.
fn bits_of(value: f64) -> u64 {
    if value.is_nan() {
        NAN_BITS
    } else {
        value.to_bits()
    }
}

impl Profile {
    pub fn of_record(mut record: Numbers) -> Self {
        // The list has the calls by number, since all of it is numbers.
        let call = record.size();
        let calls = if call == ALL {
            CALLS.as_slice()
        } else {
            CALLS.get(call..=call).unwrap_or(&[])
        };
        let tree = Tree::of_numbers(&mut record);
        let seat = record.size();
        let count = record.size();
        let given = record.size();
        Profile {
            calls,
            tree,
            seat,
            count,
            entries: entries_of(record.rest(), given),
        }
    }

    // The calls take different things of a profile, so a match has each beside its own.
    fn ask(&self, call: Call, work: &mut [u64]) -> ValuesAnswer {
        let Tree { game, seats, .. } = self.tree;
        let entries = &self.entries[..least(self.count, ENTRIES)];
        let outcome = match call {
            Call::BestResponseValue => {
                best_response::best_response_value(game, seats, work, self.seat, entries)
            }
            Call::BestResponseValues => {
                best_response::best_response_values(game, seats, work, entries)
            }
            Call::ProfileValues => best_response::profile_values(game, seats, work, entries),
            Call::NashConv => best_response::nash_conv(game, seats, work, entries),
            Call::Exploitability => best_response::exploitability(game, seats, work, entries),
        };
        ValuesAnswer::from(outcome)
    }

    fn say_call<O: Write>(
        &self,
        memory: &mut [u64],
        line: &mut WrittenLine,
        out: &mut O,
        call: Call,
    ) -> io::Result<()> {
        let work = self.tree.lend(memory);
        let ValuesAnswer {
            refusal,
            count,
            values,
        } = self.ask(call, work);
        line.say_call(out, call.letter(), refusal)?;
        line.say(out, count)?;
        for value in values {
            line.say(out, bits_of(value))?;
        }
        self.tree.mix_left_by_number(line, work, refusal);
        Ok(())
    }

    // The calls that the record asks for.
    pub fn answer<O: Write>(&self, memory: &mut [u64], out: &mut O) -> io::Result<()> {
        let mut line = WrittenLine::new(true);
        for call in self.calls {
            self.say_call(memory, &mut line, out, *call)?;
        }
        line.end(out)
    }
}
