// What the replay programs share: a list from standard input, a line of words and a checksum for each of its lines, memory to lend,
// the rules calls of a list on positions of either game, and what its calls over a tree have in common.
// A list is one of numbers, as the programs read it, or of words (list.rt). At the root `Line` and `Record` are those of numbers.
// Test support. It is proved safe and ending; its contracts say no more.
#![tactic(auto)]

pub mod line;
pub mod list;
pub mod memory;
pub mod rules;
#[cfg(test)]
mod tests;
pub mod tree;

pub use line::WrittenLine as Line;
pub use list::{Numbers as Record, Source};
pub use memory::{least, untouched_bytes, untouched_words};
