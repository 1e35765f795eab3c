// What the mover does to records: laws only.
#![tactic(auto)]
