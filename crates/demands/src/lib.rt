// What was promised of the compiler, as theorems over the definitions of what its calls come to. They stand in proofs/. There is no code to run.
#![tactic(auto)]
