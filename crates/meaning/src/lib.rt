// What a reader must believe stands in specs/; no code is here.
#![tactic(auto)]
