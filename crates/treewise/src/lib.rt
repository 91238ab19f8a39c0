// What a text comes to is a function of its module's tree: declarations and statements are judged on the tree as they are where they stand in the text.
// The definitions stand in specs/, the theorems in proofs/. There is no code to run.
#![tactic(auto)]
