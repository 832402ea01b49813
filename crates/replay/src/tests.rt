// Lines that are kept and records of words, by two games of one seat: a coin, whose side is a byte, and a public card, which is there or not. The checksums come
// from compare/README.md's rule, by another program.

use crate::line::Line;
use crate::list::{Record, replay};
use crate::memory::{filled, first, output, work};
use crate::rules::{Position, answer};
use crate::tree::Tree;
use refusals::{Payoffs, Refusal};
use std::alloc::{AllocError, Allocator, Global};
use std::cell::Cell;
use std::fmt::Display;
use std::io;
use std::io::{BufRead, ErrorKind, Lines};
use std::test::Fail;

#[derive(Drop)]
struct Coin {
    side: u8,
}

impl Position for Coin {
    fn of_game(record: &mut Record) -> io::Result<Self> {
        let side = record.number()?;
        Ok(Coin { side })
    }

    fn of_record(alloc: Global, record: &mut Record) -> io::Result<Self> {
        let [side] = filled::<1>(&record.bytes(alloc)?, 7, 0);
        Ok(Coin { side })
    }

    fn last_seat(&self) -> usize {
        0
    }

    fn last_outcome(&self) -> usize {
        1
    }

    fn actions(&self) -> &'static [usize] {
        &[0, 1]
    }

    fn initial_state(&self) -> Result<Self, Refusal> {
        Ok(Coin { side: 0 })
    }

    // Both actions, for seat 0.
    fn legal_actions(&self, seat: usize, out: &mut [u8]) -> Result<usize, Refusal> {
        if seat != 0 {
            return Err(Refusal::Seat);
        }
        let out = out.get_mut(..2).ok_or(Refusal::Output)?;
        out.copy_from_slice(&[0, 1]);
        Ok(2)
    }

    fn apply_chance_node(&self, outcome: usize) -> Result<Self, Refusal> {
        match outcome {
            0 => Ok(Coin { side: 0 }),
            1 => Ok(Coin { side: 1 }),
            _ => Err(Refusal::Card),
        }
    }

    // Action 1 turns it.
    fn step(&self, action: usize) -> Result<Self, Refusal> {
        if action != 1 {
            return Err(Refusal::Illegal);
        }
        Ok(Coin {
            side: self.side ^ 1,
        })
    }

    // Its side, for seat 0.
    fn information_state_key(&self, seat: usize, out: &mut [u8]) -> Result<usize, Refusal> {
        if seat != 0 {
            return Err(Refusal::Seat);
        }
        let out = out.first_mut().ok_or(Refusal::Output)?;
        *out = self.side;
        Ok(1)
    }

    fn payouts(&self) -> Result<Payoffs, Refusal> {
        Ok(Payoffs {
            count: 1,
            payoffs: [-3, 0, 0, 0, 0, 0, 0, 0, 0, 0],
        })
    }

    fn validate_decoded_state(&self, done: u64) -> Result<(), Refusal> {
        if done != 0 {
            return Err(Refusal::EndMark);
        }
        Ok(())
    }

    fn mix(&self, line: &mut Line) {
        line.mix(self.side);
    }

    fn say(&self, line: &mut Line) -> Result<(), AllocError> {
        line.say(self.side)
    }
}

// Every call on it is refused; saved, it may have no public card.
#[derive(Drop)]
struct Card {
    public: bool,
}

impl Position for Card {
    fn of_game(_record: &mut Record) -> io::Result<Self> {
        Ok(Card { public: true })
    }

    fn of_record(_alloc: Global, record: &mut Record) -> io::Result<Self> {
        let public = record.number::<u8>()? == 1;
        Ok(Card { public })
    }

    fn without_public(&self) -> Option<Self> {
        self.public.then_some(Card { public: false })
    }

    fn last_seat(&self) -> usize {
        0
    }

    fn last_outcome(&self) -> usize {
        0
    }

    fn actions(&self) -> &'static [usize] {
        &[]
    }

    fn initial_state(&self) -> Result<Self, Refusal> {
        Err(Refusal::Unfit)
    }

    fn legal_actions(&self, _seat: usize, _out: &mut [u8]) -> Result<usize, Refusal> {
        Err(Refusal::Unfit)
    }

    fn apply_chance_node(&self, _outcome: usize) -> Result<Self, Refusal> {
        Err(Refusal::Unfit)
    }

    fn step(&self, _action: usize) -> Result<Self, Refusal> {
        Err(Refusal::Unfit)
    }

    fn information_state_key(&self, _seat: usize, _out: &mut [u8]) -> Result<usize, Refusal> {
        Err(Refusal::Unfit)
    }

    fn payouts(&self) -> Result<Payoffs, Refusal> {
        Err(Refusal::Unfit)
    }

    fn validate_decoded_state(&self, done: u64) -> Result<(), Refusal> {
        if self.public {
            return Err(Refusal::EarlyPublic);
        }
        if done != 0 {
            return Err(Refusal::EndMark);
        }
        Ok(())
    }

    fn mix(&self, line: &mut Line) {
        line.mix(u8::from(self.public));
    }

    fn say(&self, _line: &mut Line) -> Result<(), AllocError> {
        Ok(())
    }
}

#[test]
fn a_line_is_kept(rt: HostRuntime) -> Result<(), Fail> {
    let alloc = rt.alloc();
    for (shown, want) in [(true, "W 3 4 L 5 2 7 8 385748028"), (false, "385748028")] {
        let mut line = Line::new(alloc, shown);
        line.say('W')?;
        line.say_all(&[3, 4])?;
        line.say_call('L', &Err::<usize, _>(Refusal::Seat))?;
        line.say_list(&[7, 8])?;
        line.mix(5);
        line.mix_all(&[1, 2]);
        line.mix_number(258);
        line.mix_length(3);
        line.mix_left(&[1, 2], &Ok::<usize, Refusal>(0), 1);
        line.mix_left(&[1, 2], &Err::<usize, Refusal>(Refusal::Seat), 1);
        assert_eq!(rt; line.to_string(alloc)?.as_str(), want);
    }
    Ok(())
}

#[test]
fn a_record_has_words(rt: HostRuntime) -> Result<(), Fail> {
    let mut record = Record::new(" 3  -5 2 7 255 -1 4 256");
    assert_eq!(rt; record.number::<u64>()?, 3);
    assert_eq!(rt; record.number::<i64>()?, -5);
    assert_eq!(rt; record.bytes(rt.alloc())?.as_slice(), [7, 255].as_slice());
    assert_eq!(rt;
        record.numbers::<i64>(rt.alloc(), 2)?.as_slice(),
        [-1, 4].as_slice()
    );
    assert!(rt; record.number::<u8>().is_err(), "256 is no byte");
    assert!(rt; record.number::<u8>().is_err(), "nothing is left");
    Ok(())
}

#[test]
fn memory_is_as_before_a_call(rt: HostRuntime) -> Result<(), Fail> {
    assert_eq!(rt; first(&[1, 2, 3], 2), [1, 2].as_slice());
    assert_eq!(rt; first(&[1, 2, 3], 4), [1, 2, 3].as_slice());
    assert_eq!(rt;
        filled::<4>(&[9], 2, 3).as_slice(),
        [9, 10, 12, 14].as_slice()
    );
    let bytes = output(rt.alloc(), 57)?;
    assert_eq!(rt; bytes.first().copied(), Some(200));
    assert_eq!(rt; bytes.last().copied(), Some(0), "256 is cut");
    assert_eq!(rt; work(rt.alloc(), 2)?.as_slice(), [200, 201].as_slice());
    Ok(())
}

#[test]
fn a_tree_has_its_work(rt: HostRuntime) -> Result<(), Fail> {
    let tree = Tree::of_record(&mut Record::new("0 2 3 1"))?;
    assert_eq!(rt; (tree.game, tree.seats), (0, 2));
    assert!(rt;
        Tree::of_record(&mut Record::new("0 2 3")).is_err(),
        "a number short"
    );
    let work = tree.work(rt.alloc())?;
    assert_eq!(rt; work.as_slice(), [200, 201, 202].as_slice());
    let (mut line, mut like) = (Line::new(rt.alloc(), true), Line::new(rt.alloc(), true));
    tree.mix_left(&mut line, &work, &Ok::<usize, Refusal>(0));
    like.mix_number(201);
    like.mix_number(202);
    tree.mix_left(&mut line, &work, &Err::<usize, Refusal>(Refusal::Sum));
    like.mix_number(200);
    like.mix_number(201);
    like.mix_number(202);
    assert_eq!(rt; line.to_string(rt.alloc())?, like.to_string(rt.alloc())?);
    Ok(())
}

// The records of a list, each with its line.
const LINES: [(&str, &str); 5] = [
    ("0 7", "I 0 0 4098453791"),
    (
        "1 2 1 1",
        "L 0 2 0 1 L 5 L 5 D 0 0 D 0 1 D 11 D 11 S 15 S 0 0 K 0 1 1 K 5 K 5 P 0 1 -3 998909419",
    ),
    ("2 0 1 9", "2846423387"),
    ("3 1 1", "0 18 221351827"),
    ("4 1 1", "221351827"),
];

const CARD_LINES: [(&str, &str); 5] = [
    ("0", "I 20 2309102900"),
    (
        "1 32 1",
        "L 20 L 20 L 20 D 20 D 20 D 20 K 20 K 20 K 20 P 20 769444481",
    ),
    ("3 1", "17 17 0 18 1453564243"),
    ("3 0", "0 18 1517073747"),
    ("4 1", "1453564243"),
];

#[test]
fn each_record_has_its_line(rt: HostRuntime) -> Result<(), Fail> {
    let alloc = rt.alloc();
    for (record, want) in LINES {
        let line = answer::<Coin>(alloc, &mut Record::new(record))?;
        assert_eq!(rt; line.to_string(alloc)?.as_str(), want, "{record}");
    }
    for (record, want) in CARD_LINES {
        let line = answer::<Card>(alloc, &mut Record::new(record))?;
        assert_eq!(rt; line.to_string(alloc)?.as_str(), want, "{record}");
    }
    for record in ["", "5 7", "0", "0 256", "0 x", "1 2 1", "3 2 1"] {
        let error = answer::<Coin>(alloc, &mut Record::new(record)).err();
        assert_eq!(rt;
            error.map(|e| e.kind()),
            Some(ErrorKind::InvalidData),
            "{record}"
        );
    }
    Ok(())
}

// Standard input that is a list, and standard output that tells whether what came is what is wanted.
#[derive(Drop)]
struct Host {
    alloc: Global,
    list: &'static str,
    want: &'static str,
    right: Cell<bool>,
}

impl Alloc for Host {
    type A = Global;

    fn alloc(&self) -> Global {
        self.alloc
    }
}

impl Input for Host {
    type Reader = &'static [u8];

    fn read_line<A: Allocator + Clone>(&self, buf: &mut String<A>) -> io::Result<usize> {
        self.reader().read_line(buf)
    }

    fn lines<A: Allocator>(&self, alloc: A) -> Lines<&'static [u8], A> {
        self.reader().lines(alloc)
    }

    fn reader(&self) -> &'static [u8] {
        self.list.as_bytes()
    }
}

impl Print for Host {
    fn print<D: Display + Drop>(&self, value: D) -> io::Result<()> {
        self.write_all(value.to_string(self.alloc)?.as_bytes())
    }

    fn println<D: Display + Drop>(&self, value: D) -> io::Result<()> {
        self.write_all(format!(in self.alloc; "{value}\n")?.as_bytes())
    }

    fn write_all(&self, bytes: &[u8]) -> io::Result<()> {
        self.right.set(bytes == self.want.as_bytes());
        Ok(())
    }
}

// The last list has an empty line, which is no record.
const LISTS: [(&str, bool); 3] = [
    ("0 7\n4 1 1\n", true),
    ("0 7\n4 1 1", true),
    ("0 7\n\n4 1 1\n", false),
];

#[test]
fn each_line_is_answered(rt: HostRuntime) -> Result<(), Fail> {
    let alloc = rt.alloc();
    for (list, ends) in LISTS {
        let host = Host {
            alloc,
            list,
            want: "I 0 0 4098453791\n221351827\n",
            right: Cell::new(false),
        };
        let ended = replay(&host, |record| answer::<Coin>(alloc, record)).is_ok();
        assert_eq!(rt; ended, ends, "{list}");
        assert_eq!(rt; host.right.get(), ends, "{list}");
    }
    Ok(())
}
