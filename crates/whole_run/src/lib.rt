// Every run is, instruction by instruction, what the papers say: the theorem, and no code.

#![tactic(auto)]
