// How far the records of a run have to go: laws only.
#![tactic(auto)]
