// What the fit program prints of a module is counted in the map that it emits.
#![tactic(auto)]
