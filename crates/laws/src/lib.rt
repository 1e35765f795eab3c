// Laws of lists, sums and numbers that know nothing of the board: definitions and lemmas for the crates above.
#![tactic(auto)]
