// Words that pass the check give by their links the tree of the table that they hold, so that a search over the words says what it says of the table. Laws, no code.
#![tactic(auto)]
