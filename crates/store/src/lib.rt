// The calls that change a store, for the two kinds that there are: start, insert, delete, a list of edits, and carry. Word 2 of a store names its kind, and what is started is large. Every promise is one equation for the answer and for every lent word, whatever the words hold.
//
// A call has a branch for each kind, with the scratch of that kind: setting it to zeros takes the time that the kind needs. The compiled call's frame has room for the larger one.
#![tactic(auto)]

ghost use Rattle.std.specs.Prelude.{◌≡◌};
ghost use Rattle.refusal.specs.Refusals.{answer_of};
ghost use Rattle.model.specs.Ipv4.{large, kind_in};
ghost use Rattle.ipv4.specs.Rule.{given};
ghost use Rattle.gather.specs.Gather.{edits_in};
ghost use Rattle.series.specs.Edits.{list_says, list_words};
ghost use Rattle.layout.specs.Store.{start_answer, start_words, insert_says, insert_words, delete_says, delete_words, carry_says, carry_words};

use gather::Gathered;
use ipv4::Rule;
use refusal::Refusal;
use series::Listed;

// Starts a large store of c cells that holds the default rule alone, with an action.
pub fn start(words: &mut [u32], c: u32, action: u32) -> Result<(), Refusal>
    ensures { (answer_of result ≡ start_answer large words.old c) × (words.new ≡ start_words large words.old c action) }
{
    let mut sets = [0u16; ipv4::LARGE];
    let mut ends = [0u32; ipv4::LARGE];
    plant::start(words, c, action, &ipv4::shape(true), &mut sets, &mut ends)
}

// Inserts a rule.
pub fn insert(words: &mut [u32], rule: Rule) -> Result<(), Refusal>
    ensures { (answer_of result ≡ insert_says (kind_in words.old) words.old (given rule)) × (words.new ≡ insert_words (kind_in words.old) words.old (given rule)) }
{
    let row = ipv4::row_of(rule);
    if ipv4::is_large(words) {
        let mut sets = [0u16; ipv4::LARGE];
        let mut ends = [0u32; ipv4::LARGE];
        return change::insert(words, &row, &ipv4::shape(true), &mut sets, &mut ends);
    }
    let mut sets = [0u16; ipv4::SMALL];
    let mut ends = [0u32; ipv4::SMALL];
    change::insert(words, &row, &ipv4::shape(false), &mut sets, &mut ends)
}

// Deletes the rule of a number.
pub fn delete(words: &mut [u32], number: u32) -> Result<(), Refusal>
    ensures { (answer_of result ≡ delete_says (kind_in words.old) words.old number) × (words.new ≡ delete_words (kind_in words.old) words.old number) }
{
    if ipv4::is_large(words) {
        let mut sets = [0u16; ipv4::LARGE];
        let mut ends = [0u32; ipv4::LARGE];
        return change::delete(words, number, &ipv4::shape(true), &mut sets, &mut ends);
    }
    let mut sets = [0u16; ipv4::SMALL];
    let mut ends = [0u32; ipv4::SMALL];
    change::delete(words, number, &ipv4::shape(false), &mut sets, &mut ends)
}

// Does a list of edits: all of them, or none.
pub fn edit_list(words: &mut [u32], list: Gathered) -> Listed
    ensures { (result ≡ list_says (kind_in words.old) words.old (edits_in list)) × (words.new ≡ list_words (kind_in words.old) words.old (edits_in list)) }
{
    let count = list.count;
    if ipv4::is_large(words) {
        let mut set = [0u16; ipv4::LARGE_ROWS];
        let mut sets = [0u16; ipv4::LARGE];
        let mut ends = [0u32; ipv4::LARGE];
        return revise::edit_list(
            words,
            &list.words,
            count,
            &ipv4::shape(true),
            &mut set,
            &mut sets,
            &mut ends,
        );
    }
    let mut set = [0u16; ipv4::SMALL_ROWS];
    let mut sets = [0u16; ipv4::SMALL];
    let mut ends = [0u32; ipv4::SMALL];
    revise::edit_list(
        words,
        &list.words,
        count,
        &ipv4::shape(false),
        &mut set,
        &mut sets,
        &mut ends,
    )
}

// Carries the table of a store of either kind into lent words, as a large store of c cells.
pub fn carry(from: &[u32], words: &mut [u32], c: u32) -> Result<(), Refusal>
    ensures { (answer_of result ≡ carry_says (kind_in from.now) large from.now words.old c) × (words.new ≡ carry_words (kind_in from.now) large from.now words.old c) }
{
    let old = ipv4::shape(ipv4::is_large(from));
    let mut sets = [0u16; ipv4::LARGE];
    let mut ends = [0u32; ipv4::LARGE];
    carry::carry(
        from,
        words,
        c,
        &old,
        &ipv4::shape(true),
        &mut sets,
        &mut ends,
    )
}
