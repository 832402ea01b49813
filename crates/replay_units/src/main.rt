// Replays the calls in whole units on the list of standard input; what it writes is held to the answers of an exact reference.
// compare/README.md has the format of both.
#![tactic(auto)]

mod table;

use crate::table::Table;
use replay::list;
use replay::memory::WORDS;
use std::io;

fn main(rt: HostRuntime) -> io::Result<()> {
    let mut memory = vec![in rt.alloc(); 0; WORDS]?;
    list::replay_numbers(
        &rt,
        |record, out| Table::of_record(record).answer(&mut memory, out),
    )
}
