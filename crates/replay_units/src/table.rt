// A table of the list, and the calls on it, each with memory as it is before a call.

use best_reply::ReplyAnswer;
use nash_conv_units::NashConvAnswer;
use replay::line::WrittenLine;
use replay::list::Numbers;
use replay::tree::Tree;
use replay::{least, untouched_bytes};
use std::io::{self, Write};
use worths::WorthsAnswer;

// How many entries a table has at most, and how many bytes of output a call is lent.
const ENTRIES: usize = 2209;

// What a record has: whether the replies are shown, the tree, the parts of a set, how many bytes of output are lent, how many entries the table has, and the
// parts of each.
#[derive(Clone, Copy)]
pub struct Table {
    shown: bool,
    tree: Tree,
    parts: usize,
    room: usize,
    count: usize,
    entries: [u8; ENTRIES],
}

impl Table {
    pub fn of_record(mut record: Numbers) -> Self {
        // The list has codes, since all of it is numbers: 1 has the replies in words, 2 in the checksum alone.
        let code = record.number();
        let tree = Tree::of_numbers(&mut record);
        let parts = record.size();
        let room = record.size();
        let mut given = record;
        Table {
            shown: code == 1,
            tree,
            parts,
            room,
            count: given.size(),
            entries: record.filled(0, 0),
        }
    }

    // The entries that the calls are handed.
    fn table(&self) -> &[u8] {
        &self.entries[..least(self.count, ENTRIES)]
    }

    // The worths of all seats.
    fn say_worths<O: Write>(
        &self,
        memory: &mut [u64],
        line: &mut WrittenLine,
        out: &mut O,
    ) -> io::Result<()> {
        let Tree { game, seats, .. } = self.tree;
        let work = self.tree.lend(memory);
        let answer = worths::worths(game, seats, work, self.parts, self.table());
        let WorthsAnswer {
            refusal,
            count,
            worths,
        } = WorthsAnswer::from(answer);
        line.say_call(out, 'W', refusal)?;
        line.say(out, count)?;
        line.say_all(out, &worths)?;
        self.tree.mix_left_by_number(line, work, refusal);
        Ok(())
    }

    // The best value of a seat, its reply if it is shown, and all of the output in the checksum.
    fn say_reply<O: Write>(
        &self,
        memory: &mut [u64],
        line: &mut WrittenLine,
        out: &mut O,
        seat: usize,
    ) -> io::Result<()> {
        let Tree { game, seats, .. } = self.tree;
        let work = self.tree.lend(memory);
        let mut bytes = [0; ENTRIES];
        let reply = &mut bytes[..least(self.room, ENTRIES)];
        untouched_bytes(reply);
        let table = self.table();
        let answer = best_reply::best_reply(game, seats, work, seat, self.parts, table, reply);
        let ReplyAnswer { refusal, value } = ReplyAnswer::from(answer);
        line.say_call(out, 'B', refusal)?;
        line.say(out, value)?;
        if self.shown && refusal == 0 {
            line.say_all(out, reply.get(..self.count).unwrap_or(reply))?;
        }
        line.mix_all(reply);
        self.tree.mix_left_by_number(line, work, refusal);
        Ok(())
    }

    // NashConv, and the units of the root.
    fn say_nash_conv<O: Write>(
        &self,
        memory: &mut [u64],
        line: &mut WrittenLine,
        out: &mut O,
    ) -> io::Result<()> {
        let Tree { game, seats, .. } = self.tree;
        let work = self.tree.lend(memory);
        let answer = nash_conv_units::nash_conv_units(game, seats, work, self.parts, self.table());
        let NashConvAnswer {
            refusal,
            nash_conv,
            units,
        } = NashConvAnswer::from(answer);
        line.say_call(out, 'N', refusal)?;
        line.say(out, nash_conv)?;
        line.say(out, units)?;
        self.tree.mix_left_by_number(line, work, refusal);
        Ok(())
    }

    // The worths, the replies of the seats up to the seat count, which is none, but at most to 6, and of the largest number, and NashConv.
    pub fn answer<O: Write>(&self, memory: &mut [u64], out: &mut O) -> io::Result<()> {
        let mut line = WrittenLine::new(true);
        self.say_worths(memory, &mut line, out)?;
        for seat in (0..=self.tree.seats.min(6)).chain([usize::MAX]) {
            self.say_reply(memory, &mut line, out, seat)?;
        }
        self.say_nash_conv(memory, &mut line, out)?;
        line.end(out)
    }
}
