// Replays the listing on the list of standard input; what it writes is held to the Rust's answers.
// compare/README.md has the format of both.
#![tactic(auto)]

use listing::ListingAnswer;
use replay::line::WrittenLine;
use replay::list::Numbers;
use replay::memory::WORDS;
use replay::{least, list, untouched_bytes, untouched_words};
use std::io::{self, Write};

// How many bytes the listing has for a set.
const RECORD: usize = 24;

// How many words a node takes of the work memory.
const NODE: usize = 12;

// How many bytes of output a call is lent at most.
const ROOM: usize = 22489;

// A set, in hexadecimal digits.
fn say_set<O: Write>(out: &mut O, set: &[u8]) -> io::Result<()> {
    for byte in set {
        write!(out, "{byte:02x}")?;
    }
    out.write_all(b"\n")
}

// One record: the game, the seats, and how many words and bytes are lent. The checksum has all that the call may not have touched, and below the line stands a
// line for each set.
fn answer<O: Write>(memory: &mut [u64], mut record: Numbers, out: &mut O) -> io::Result<()> {
    let game = record.size();
    let seats = record.size();
    let words = least(record.size(), memory.len());
    let work = &mut memory[..words];
    untouched_words(work);
    let mut bytes = [0; ROOM];
    let room = least(record.size(), ROOM);
    let lent = &mut bytes[..room];
    untouched_bytes(lent);
    let answer = ListingAnswer::from(listing::enumerate_infosets(game, seats, work, lent));
    let ListingAnswer {
        refusal,
        nodes,
        sets,
    } = answer;
    let mut line = WrittenLine::new(true);
    line.say(out, refusal)?;
    line.say(out, nodes)?;
    line.say(out, sets)?;
    line.mix_number(refusal);
    line.mix_length(nodes);
    line.mix_length(sets);
    line.mix_all(lent);
    line.mix_words(work, nodes.saturating_mul(NODE));
    line.end(out)?;
    for set in lent.chunks(RECORD).take(sets) {
        say_set(out, set)?;
    }
    Ok(())
}

fn main(rt: HostRuntime) -> io::Result<()> {
    let mut memory = vec![in rt.alloc(); 0; WORDS]?;
    list::replay_numbers(&rt, |record, out| answer(&mut memory, record, out))
}
