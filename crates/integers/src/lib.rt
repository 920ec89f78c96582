// Rounding, by which the rules are defined, and laws of integers, of signed machine numbers and of booleans: all in specs/, no function.
#![tactic(auto)]
