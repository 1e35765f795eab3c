// The starred bench cases, for the definitions: one table, and no code.
#![tactic(auto)]
