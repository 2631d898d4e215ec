// Document 01's worked rows, computed from the bytes, stand in specs/.
#![tactic(auto)]
