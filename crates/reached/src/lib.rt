// What a text can't bring: the bounds within which the definitions of stages 3 to 5 hold everything are never passed. The theorems stand in proofs/. There
// is no code to run.
#![tactic(auto)]
