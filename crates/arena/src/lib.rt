// The tree in work memory: a word for each node, a node before its children. Behind the nodes stand the index's words: for each set's code its first entry, and
// for each first entry the set's first member.
#![tactic(auto)]

pub mod payoffs;
pub mod walk;
pub mod words;
