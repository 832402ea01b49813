// Trees, strategies in parts, replies and the reply theorem: definitions and facts, no code.
#![tactic(auto)]
