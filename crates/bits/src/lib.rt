// The bits of a word, and tests of all the numbers below a bound: definitions and laws for the crates above, and no code.

#![tactic(auto)]
