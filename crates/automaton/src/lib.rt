// The position automaton of a pattern as mathematics: it stands in specs/. Crate positions has it as words, crate compiler writes them.
#![tactic(auto)]
