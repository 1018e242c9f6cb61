// What SHL does, and what follows from it: definitions and laws, no code.

#![tactic(auto)]
