// What the records of calls over a tree have in common: the tree's game, and the work memory that each call is lent.

ghost use Rattle.std.specs.Prelude.{◌≡◌, IfOk, vec_len};

use crate::line::{Line, WrittenLine};
use crate::list::{Numbers, Record};
use crate::memory;
use crate::memory::{least, untouched_words};
use refusals::Refusal;
use std::alloc::{AllocError, Global};
use std::io;

// The game by its number, as the calls take it, its seats, how many words each call is lent, and from which word on an accepted one has to leave them.
#[derive(Clone, Copy)]
pub struct Tree {
    pub game: usize,
    pub seats: usize,
    words: usize,
    kept: usize,
}

impl Tree {
    // Of a record of numbers.
    pub fn of_numbers(record: &mut Numbers) -> Self {
        let game = record.size();
        let seats = record.size();
        let words = record.size();
        let kept = record.size();
        Tree {
            game,
            seats,
            words,
            kept,
        }
    }

    // The work memory of a call, as it is before: as many words as the record asks for and there are.
    pub fn lend<'a>(&self, memory: &'a mut [u64]) -> &'a mut [u64] {
        let words = least(self.words, memory.len());
        let work = &mut memory[..words];
        untouched_words(work);
        work
    }

    // What a call with this refusal number had to leave of it.
    pub fn mix_left_by_number(&self, line: &mut WrittenLine, work: &[u64], refusal: u64) {
        line.mix_left(work, refusal, self.kept);
    }

    // Of a record of words.
    pub fn of_record(record: &mut Record) -> io::Result<Self> {
        let game = record.number()?;
        let seats = record.number()?;
        let words = record.number()?;
        let kept = record.number()?;
        Ok(Tree {
            game,
            seats,
            words,
            kept,
        })
    }

    // Work memory for a call, of as many words as the record asks for.
    pub fn work(&self, alloc: Global) -> Result<Vec<u64>, AllocError>
        ensures { IfOk result (λ lent. vec_len lent ≡ self.now.words) }
    {
        memory::work(alloc, self.words)
    }

    // What a call with this answer had to leave of it.
    pub fn mix_left<T>(&self, line: &mut Line, work: &[u64], answer: &Result<T, Refusal>) {
        line.mix_left(work, answer, self.kept);
    }
}
