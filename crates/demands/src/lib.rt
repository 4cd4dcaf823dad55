// The three demands and document 01's starred list, as theorems about what the calls answer and leave. This crate has no code: specs/ is to be read from top to bottom, and proofs/ shows it.
#![tactic(auto)]
