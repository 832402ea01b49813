// Replays the calls in f64 on the list of standard input; what it writes is held to the Rust's answers.
// compare/README.md has the format of both.
#![tactic(auto)]

mod profile;

use crate::profile::Profile;
use replay::list;
use replay::memory::WORDS;
use std::io;

fn main(rt: HostRuntime) -> io::Result<()> {
    let mut memory = vec![in rt.alloc(); 0; WORDS]?;
    list::replay_numbers(
        &rt,
        |record, out| Profile::of_record(record).answer(&mut memory, out),
    )
}
