// The search as mathematics stands in specs/; its loops over a lent work area are in the crates expanding, backward, forward and walk.
#![tactic(auto)]
