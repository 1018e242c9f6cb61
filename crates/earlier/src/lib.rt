// The rules that a request replaced, as definitions, and what its landing left as it was: no code.

#![tactic(auto)]
