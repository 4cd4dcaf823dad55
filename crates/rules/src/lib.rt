// The bench table: a store of 1,024 cells with the rules 10 and 20, for the programs that look packets up in it.
#![tactic(auto)]

ghost use Rattle.std.specs.Prelude.{◌≡◌};
ghost use Rattle.rules.specs.Store.{bench_words};

use ipv4::Rule;

// Destination 10.0.0.0 to 10.0.0.255, any source, protocol 17, destination port 5000 to 5009, any source port, of packets with ports.
const RULE_10: Rule = Rule {
    number: 10,
    action: 2,
    low: [167772160, 0, 17, 5000, 0, 0],
    high: [167772415, 4294967295, 17, 5009, 65535, 0],
};

// Destination 10.0.0.0 to 10.0.0.127, all else full.
const RULE_20: Rule = Rule {
    number: 20,
    action: 3,
    low: [167772160, 0, 0, 0, 0, 0],
    high: [167772287, 4294967295, 255, 65535, 65535, 1],
};

// Makes the words the store of the bench table.
pub fn fill(words: &mut [u32])
    ensures { words.new ≡ bench_words words.old }
{
    let _ = store::start(words, 1024, 0);
    let _ = store::insert(words, RULE_10);
    let _ = store::insert(words, RULE_20);
}
