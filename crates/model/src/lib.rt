#![tactic(auto)]

// Definitions and laws of the packet decision, over any number of fields. This crate has no code: what stands in specs/ is what the promises of the other crates speak of, and proofs/ shows what follows from it.
