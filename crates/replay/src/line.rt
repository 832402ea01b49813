// One line of answers: words, and a checksum of every field of every answer. A line is written as it comes, or kept until it is shown.

use refusals::{Refusal, number_of};
use std::alloc::{AllocError, Global};
use std::fmt;
use std::fmt::Display;
use std::io::{self, Write};

// The checksum so far, which ends the line, and whether the words before it are written.
#[derive(Clone, Copy)]
pub struct WrittenLine {
    pub sum: u32,
    pub shown: bool,
}

impl WrittenLine {
    pub fn new(shown: bool) -> Self {
        WrittenLine { sum: 1, shown }
    }

    // A byte more in the checksum.
    pub fn mix(&mut self, byte: u8) {
        self.sum = self.sum.wrapping_mul(31).wrapping_add(u32::from(byte));
    }

    pub fn mix_all(&mut self, bytes: &[u8]) {
        for byte in bytes {
            self.mix(*byte);
        }
    }

    // Four bytes more. 923521, 29791 and 961 are 31 to the fourth, third and second power.
    fn mix_four(&mut self, bytes: [u8; 4]) {
        let [first, second, third, fourth] = bytes;
        let high = u32::from(first) * 29791 + u32::from(second) * 961;
        let low = u32::from(third) * 31 + u32::from(fourth);
        self.sum = self.sum.wrapping_mul(923521).wrapping_add(high + low);
    }

    // A number more, its lowest byte first.
    pub fn mix_number(&mut self, number: u64) {
        let [a, b, c, d, e, f, g, h] = number.to_le_bytes();
        self.mix_four([a, b, c, d]);
        self.mix_four([e, f, g, h]);
    }

    pub fn mix_length(&mut self, length: usize) {
        // By `as`: both have 64 bits, and u64 has no From of usize.
        self.mix_number(length as u64);
    }

    // The words from place `from` on.
    pub fn mix_words(&mut self, words: &[u64], from: usize) {
        for word in words.get(from..).unwrap_or(&[]) {
            self.mix_number(*word);
        }
    }

    // The words of work memory that a call had to leave: those from place `kept` on, or all if it was refused.
    pub fn mix_left(&mut self, work: &[u64], refusal: u64, kept: usize) {
        let from = if refusal == 0 { kept } else { 0 };
        self.mix_words(work, from);
    }

    // A word more.
    pub fn say<O: Write, W: Display + Drop>(&self, out: &mut O, word: W) -> io::Result<()> {
        if self.shown {
            write!(out, "{word} ")?;
        }
        Ok(())
    }

    // A word for each.
    pub fn say_all<O: Write, W: Display + Copy>(&self, out: &mut O, words: &[W]) -> io::Result<()> {
        for word in words {
            self.say(out, *word)?;
        }
        Ok(())
    }

    // The letter of a call, and its refusal number.
    pub fn say_call<O: Write>(&self, out: &mut O, letter: char, refusal: u64) -> io::Result<()> {
        self.say(out, letter)?;
        self.say(out, refusal)
    }

    // The first `count` bytes behind their count.
    pub fn say_list<O: Write>(&self, out: &mut O, bytes: &[u8], count: usize) -> io::Result<()> {
        self.say(out, count)?;
        self.say_all(out, bytes.get(..count).unwrap_or(bytes))
    }

    // The checksum ends the line.
    pub fn end<O: Write>(self, out: &mut O) -> io::Result<()> {
        let sum = self.sum;
        writeln!(out, "{sum}")
    }
}

// A line that is kept: the words that it begins with, none if they are not shown, and the checksum, which ends it.
#[derive(Drop)]
pub struct Line {
    words: Option<String>,
    sums: WrittenLine,
}

impl Line {
    pub fn new(alloc: Global, shown: bool) -> Self {
        Line {
            words: shown.then_some(String::new(alloc)),
            sums: WrittenLine::new(shown),
        }
    }

    // A byte more in the checksum.
    pub fn mix(&mut self, byte: u8) {
        self.sums.mix(byte);
    }

    pub fn mix_all(&mut self, bytes: &[u8]) {
        self.sums.mix_all(bytes);
    }

    // A number more, its lowest byte first.
    pub fn mix_number(&mut self, number: u64) {
        self.sums.mix_number(number);
    }

    pub fn mix_length(&mut self, length: usize) {
        self.sums.mix_length(length);
    }

    // The words of work memory that a call had to leave: those from place `kept` on, or all if it was refused.
    pub fn mix_left<T>(&mut self, work: &[u64], answer: &Result<T, Refusal>, kept: usize) {
        self.sums.mix_left(work, number_of(answer), kept);
    }

    // A word more.
    pub fn say<W: Display + Drop>(&mut self, word: W) -> Result<(), AllocError> {
        if let Some(words) = &mut self.words {
            write!(words, "{word} ")?;
        }
        Ok(())
    }

    // A word for each.
    pub fn say_all<W: Display + Copy>(&mut self, words: &[W]) -> Result<(), AllocError> {
        for word in words {
            self.say(*word)?;
        }
        Ok(())
    }

    // The letter of a call, and its refusal number.
    pub fn say_call<T>(
        &mut self,
        letter: char,
        answer: &Result<T, Refusal>,
    ) -> Result<(), AllocError> {
        self.say(letter)?;
        self.say(number_of(answer))
    }

    // The bytes behind their count.
    pub fn say_list(&mut self, bytes: &[u8]) -> Result<(), AllocError> {
        self.say(bytes.len())?;
        self.say_all(bytes)
    }
}

impl Display for Line {
    fn fmt<W: fmt::Write>(&self, f: &mut fmt::Formatter<W>) -> fmt::Result {
        let words = self.words.as_ref().map_or("", |words| words.as_str());
        let sum = self.sums.sum;
        write!(f, "{words}{sum}")
    }
}
