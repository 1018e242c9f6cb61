// What is written of a case file, the bench's lines and the verdict's, over lists alone: definitions, and the proof that the code writes just that; no
// code.

#![tactic(auto)]
