// Replays Kuhn's calls on the list of standard input; what it writes is held to the Rust's answers.
// compare/README.md has the format of both.
#![tactic(auto)]

mod position;

use crate::position::KuhnPosition;
use replay::{list, rules};
use std::io;

fn main(rt: HostRuntime) -> io::Result<()> {
    list::replay_numbers(
        &rt,
        |record, out| rules::write_answer::<KuhnPosition, _>(record, out),
    )
}
