// Document 01's worked cases, computed from the definitions alone: specs/Cases.antt has the list, proofs/Cases.antt the theorem. specs/Tried.antt has the reply
// theorem of a table of each game, specs/Pinned.antt values that the cases leave open.
#![tactic(auto)]
