// Document 01's starred lines, as one table with one statement, and its whole case, computed; no code.

#![tactic(auto)]
