// Kuhn's tree as its builder goes through it: definitions and facts, no code.
#![tactic(auto)]
