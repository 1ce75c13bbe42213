// The carry chain of slices in a row as an adder: definitions and a theorem, no code.
#![tactic(auto)]
