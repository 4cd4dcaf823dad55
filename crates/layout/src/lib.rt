// What the words of a store hold: its text as a function of its table, what each call answers and leaves, and the tree in its cells, which is the tree of its table. This crate has no code: specs/ is what the promises of the calls speak of.
#![tactic(auto)]
