// The search of any finite graph as mathematics, whatever its states and lines are: it stands in specs/.
#![tactic(auto)]
