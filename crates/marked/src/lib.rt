// Theorems only: what the definitions say of the examples that document 01 marks.
#![tactic(auto)]
