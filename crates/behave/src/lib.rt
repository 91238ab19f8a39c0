// What a map of fitted cells does in the device: the definitions stand in specs/, the theorems in proofs/. There is no code to run.
#![tactic(auto)]
