// Theorems about fuse files, in proofs/: what was written is read back, and document 01's example. No code.
#![tactic(auto)]
