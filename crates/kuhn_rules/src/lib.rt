// Kuhn's rules on cards and histories: definitions and facts, no code.
#![tactic(auto)]
