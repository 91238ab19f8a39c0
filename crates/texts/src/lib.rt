// What a text comes to, stage by stage, and what each call over it answers. The definitions stand in specs/. There is no code to run.
#![tactic(auto)]
