//! Laws on the machine: what is true of one that runs stays true in each of its turns, and each turn is a part of the run.
#![tactic(auto)]
