// A module's elements, the circuit that they are, and the map that they are compiled to: the three agree. The definitions stand in specs/, the theorems in
// proofs/. There is no code to run.
#![tactic(auto)]
