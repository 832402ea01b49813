// A list: decimal numbers, a record a line. `replay_numbers` reads all of it at once, up to a size, as numbers of 64 bits with one byte between them; whatever
// stands there is taken for numbers. `replay` reads line by line, of any length, each word between spaces as what is asked for; what is none is refused.

ghost use Rattle.std.specs.Prelude.{◌<◌};

use std::alloc::{AllocError, Global};
use std::fmt::Display;
use std::io::{self, BufRead, BufReader, BufWriter, ErrorKind, Printer, Read, Write};
use std::str::{FromStr, SplitWhitespace};

// How many bytes a list has at most. Behind those of standard input it has zeros, each of which ends a number.
const SIZE: usize = 4194304;

// How many numbers a line has at most.
const NUMBERS: usize = 4096;

// Where reading stands in a list, where standard input ended, and how many lines are left at most.
#[derive(Clone, Copy)]
pub struct Source {
    at: usize,
    end: usize,
    pub left: usize,
}

impl Source {
    // The list of standard input, of which no more is read than there is room for.
    pub fn open<I: Read + Drop>(input: I, list: &mut [u8]) -> io::Result<Self> {
        let end = read_full(input, list)?;
        Ok(Source {
            at: 0,
            end,
            left: end,
        })
    }

    // The numbers of the next line; one that the line lacks stays as it is.
    pub fn line(self, list: &[u8], numbers: &mut [u64; 4096]) -> Self
        requires { 0 < self.left }
        ensures { result.left < self.left }
    {
        let rest = list.get(self.at..).unwrap_or(&[]);
        let at = self.at.saturating_add(read_line(rest, numbers));
        let left = if at < self.end { self.left - 1 } else { 0 };
        Source {
            at,
            end: self.end,
            left,
        }
    }
}

// Reads until the list is full or the input ends. Answers how many bytes it put at the start of the list.
fn read_full<I: Read + Drop>(mut input: I, list: &mut [u8]) -> io::Result<usize> {
    let mut done = 0;
    while done < list.len() {
        let read = input.read(&mut list[done..])?;
        if read == 0 {
            break;
        }
        done += read;
    }
    Ok(done)
}

// The number with a digit more. It is cut where it gets too long, and any byte from '0' on counts as a digit.
fn with_digit(number: u64, digit: u8) -> u64 {
    let tens = number % 1844674407370955162 * 10;
    tens.wrapping_add(u64::from(digit))
}

// The numbers of the first line. Answers how many bytes it has; a byte below '0' ends a number, and a new line the line too.
fn read_line(list: &[u8], numbers: &mut [u64; 4096]) -> usize {
    let mut count: usize = 0;
    let mut value = 0;
    for (place, byte) in list.iter().enumerate() {
        if let Some(digit) = byte.checked_sub(b'0') {
            value = with_digit(value, digit);
            continue;
        }
        if let Some(number) = numbers.get_mut(count) {
            *number = value;
        }
        count = count.saturating_add(1);
        value = 0;
        if *byte == b'\n' {
            return place + 1;
        }
    }
    list.len()
}

// A place among the numbers of a line, which are read from there one after the other.
#[derive(Clone, Copy)]
pub struct Numbers<'a> {
    numbers: &'a [u64; 4096],
    at: usize,
}

impl<'a> Numbers<'a> {
    pub fn new(numbers: &'a [u64; 4096]) -> Self {
        Numbers { numbers, at: 0 }
    }

    // The next number, 0 behind the last that a line has room for.
    pub fn number(&mut self) -> u64 {
        let numbers = self.numbers;
        let number = numbers.get(self.at).copied().unwrap_or(0);
        self.at = self.at.wrapping_add(1);
        number
    }

    pub fn size(&mut self) -> usize {
        // By `as`: both have 64 bits, and usize has no From of u64.
        self.number() as usize
    }

    // A number as a byte.
    pub fn byte(&mut self) -> u8 {
        self.number().to_le_bytes()[0]
    }

    // A count and as many bytes, at the start of an array. The places behind them are filled: the array begins at place `start` of a position's, and place p is
    // filled with p + 1 times the number.
    pub fn filled<const N: usize>(&mut self, fill: u8, start: u8) -> [u8; N] {
        let count = self.size();
        let mut given = *self;
        self.at = self.at.wrapping_add(count);
        let mut bytes = [0; N];
        let mut filling = fill.wrapping_mul(start);
        for (i, byte) in bytes.iter_mut().enumerate() {
            filling = filling.wrapping_add(fill);
            *byte = if i < count { given.byte() } else { filling };
        }
        bytes
    }

    // The numbers that are left in a line.
    pub fn rest(&self) -> &'a [u64] {
        let numbers = self.numbers;
        numbers.get(self.at..).unwrap_or(&[])
    }
}

// Room for a list.
fn room(alloc: Global) -> Result<Vec<u8>, AllocError> {
    vec![in alloc; 0; SIZE]
}

// What the answers are written to.
pub type Output<'a, R> = BufWriter<Printer<'a, R>>;

// Reads all of standard input, and then answers its records.
pub fn replay_numbers<'a, R, F>(rt: &'a R, mut answer: F) -> io::Result<()>
where
    R: Input + Print + AllocGlobal,
    F: FnMut(Numbers, &mut Output<'a, R>) -> io::Result<()>,
    requires { F.IsAlwaysCallable answer }
{
    let alloc = rt.alloc();
    let mut list = room(alloc)?;
    let mut numbers = [0; NUMBERS];
    let mut source = Source::open(rt.reader(), &mut list)?;
    let mut out = BufWriter::new(alloc, io::writer(rt))?;
    while source.left > 0 {
        source = source.line(&list, &mut numbers);
        answer(Numbers::new(&numbers), &mut out)?;
    }
    out.flush()
}

// The words of a record, one after the other.
#[derive(Drop)]
pub struct Record<'a> {
    words: SplitWhitespace<'a>,
}

impl<'a> Record<'a> {
    pub fn new(line: &'a str) -> Self {
        Record {
            words: line.split_whitespace(),
        }
    }

    // The next number. A record that ends before it, or has something else there, is no record of a list.
    pub fn number<N: FromStr>(&mut self) -> io::Result<N>
    where
        N: Drop,
        N::Err: Drop,
    {
        let word = self.words.next().ok_or(ErrorKind::InvalidData)?;
        let number = word.parse::<N>().map_err(|_| ErrorKind::InvalidData)?;
        Ok(number)
    }

    // So many numbers more.
    pub fn numbers<N: FromStr>(&mut self, alloc: Global, count: usize) -> io::Result<Vec<N>>
    where
        N: Drop,
        N::Err: Drop,
    {
        let mut numbers = Vec::new(alloc);
        for _ in 0..count {
            numbers.push(self.number::<N>()?)?;
        }
        Ok(numbers)
    }

    // A count and as many bytes.
    pub fn bytes(&mut self, alloc: Global) -> io::Result<Vec<u8>> {
        let count = self.number::<usize>()?;
        self.numbers::<u8>(alloc, count)
    }
}

// Answers each record of standard input, while it reads.
pub fn replay<R, T, F>(rt: &R, mut answer: F) -> io::Result<()>
where
    R: Input + Print + AllocGlobal,
    T: Display + Drop,
    F: FnMut(&mut Record) -> io::Result<T>,
    requires { F.IsAlwaysCallable answer }
{
    let alloc = rt.alloc();
    let mut out = BufWriter::new(alloc, io::writer(rt))?;
    for line in BufReader::new(alloc, rt.reader())?.lines(alloc) {
        let line = line?;
        let answered = answer(&mut Record::new(&line))?;
        writeln!(out, "{answered}")?;
    }
    out.flush()
}
