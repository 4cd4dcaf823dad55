// The words of an image as a function of the kind and the table that it holds, and what the calls say of it: definitions and laws, no code.
#![tactic(auto)]
