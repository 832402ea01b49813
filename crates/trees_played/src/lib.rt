// The trees of both games as the public calls play them: definitions and laws, no code.
#![tactic(auto)]
