// Leduc's tree as the rules give it: definitions and facts, no code.
#![tactic(auto)]
