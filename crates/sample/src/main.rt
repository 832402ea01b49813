// Plays one hand of Kuhn poker through the rules calls, then replies to a table through the evaluation, and prints both.
#![tactic(auto)]

mod failure;
mod hand;
mod reply;
mod words;

use crate::failure::Failure;

fn main(rt: HostRuntime) -> Result<(), Failure> {
    hand::play(&rt)?;
    println!(rt)?;
    reply::show(&rt)?;
    Ok(())
}
