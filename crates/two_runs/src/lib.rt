// Two runs that differ only in tainted bytes: the theorem, and no code.

#![tactic(auto)]
