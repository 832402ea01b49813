// The counts of Leduc's tree, what the reply theorem asks of it, and the best reply: facts, no code.
#![tactic(auto)]
