// The calls that read a store and write nothing, for the two kinds that there are: the check, read by number and by place, and the cells in use. Word 2 of a store names its kind. Every promise is one equation for the answer and what comes with it, whatever the words hold.
#![tactic(auto)]

ghost use Rattle.std.specs.Prelude.{◌≡◌, IfOk, IfErr, ◌≤◌, length};
ghost use Rattle.model.specs.Table.{front};
ghost use Rattle.model.specs.Ipv4.{large, kind_in};
ghost use Rattle.refusal.specs.Refusals.{answer_of};
ghost use Rattle.ipv4.specs.Rule.{given};
ghost use Rattle.table.specs.Rows.{rule_in};
ghost use Rattle.layout.specs.Store.{rows_of, passes, zero_rule, read_says, read_gives, place_says, place_gives, cells_says, cells_gives};

use ipv4::Rule;
use refusal::Refusal;
use seek::Count;

// The store check.
pub fn check(words: &[u32]) -> bool
    ensures { result ≡ passes (kind_in words.now) words.now }
{
    ipv4::with_scratch(
        words,
        |shape, sets, ends| audit::check(words, shape, sets, ends),
    )
}

// The rule whose row begins at a word of the rows.
fn rule_of(words: &[u32], row: u32) -> Rule
    requires { front (kind_in words.now) ≤ length words.now }
    ensures { given result ≡ rule_in 6 (rows_of (kind_in words.now) words.now) row }
{
    let shape = ipv4::shape(ipv4::is_large(words));
    ipv4::rule_at(audit::rows(words, &shape), row)
}

// Reads the rule of a number; the default under 65,535.
pub fn read(words: &[u32], number: u32) -> Result<Rule, Refusal>
    ensures { (answer_of result ≡ read_says (kind_in words.now) words.now number) × IfOk result (λ rule. given rule ≡ read_gives (kind_in words.now) words.now number) }
{
    let row = ipv4::with_scratch(
        words,
        |shape, sets, ends| seek::find(words, number, shape, sets, ends),
    )?;
    Ok(rule_of(words, row))
}

// Reads the rule at a place. Places are counted from 1, by rising number.
pub fn rule_at(words: &[u32], place: u32) -> Result<Rule, Refusal>
    ensures { (answer_of result ≡ place_says (kind_in words.now) words.now place) × IfOk result (λ rule. given rule ≡ place_gives (kind_in words.now) words.now place) }
{
    let row = ipv4::with_scratch(
        words,
        |shape, sets, ends| seek::find_at(words, place, shape, sets, ends),
    )?;
    Ok(rule_of(words, row))
}

// The rule that was read, or zeros with a refusal, as C is given it.
pub fn or_zeros(read: Result<Rule, Refusal>) -> Rule
    ensures { IfOk read (λ rule. result ≡ rule) × IfErr read (λ refusal. given result ≡ zero_rule large) }
{
    read.unwrap_or(Rule {
        number: 0,
        action: 0,
        low: [0; 6],
        high: [0; 6],
    })
}

// Counts the cells in use.
pub fn cells(words: &[u32]) -> Count
    ensures { (result.answer ≡ cells_says (kind_in words.now) words.now) × (result.cells ≡ cells_gives (kind_in words.now) words.now) }
{
    Count::from(ipv4::with_scratch(
        words,
        |shape, sets, ends| seek::cells(words, shape, sets, ends),
    ))
}
