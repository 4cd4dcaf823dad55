// Searches of a tree for the least record of values whose walk gathers the most, over any number of fields. Definitions and laws, and for the code of the searches two ways between a word and a wider number.
#![tactic(auto)]

ghost use Rattle.std.specs.Prelude.{◌≡◌, ◌%◌, ◌≤◌};

// A number as a word: what is above that is cut.
pub fn narrow(x: u64) -> u32
    ensures { result ≡ x % 4294967296 }
{
    (x % 4294967296) as u32
}

// A word as a number that has room for one more than any word.
pub fn wide(x: u32) -> u64
    ensures { (result ≡ x) × (result ≤ 4294967295) }
{
    x as u64
}
