// Facts about lists, for every crate that needs them: they stand in specs/.
#![tactic(auto)]
