//! What a machine makes of the part of a program that it has before it: its turns, and the laws on them.
#![tactic(auto)]
