// Whether words are exactly the blocks of the tree of some rules. The tree is not made: its chains are gone through in the order in which they are laid, and each word is compared with what would be written there.
#![tactic(auto)]

ghost use Rattle.std.specs.Prelude.{◌≡◌, ◌+◌, ◌*◌, ◌≤◌, ◌<◌, length, take};
ghost use Rattle.model.specs.Lists.{same};
ghost use Rattle.rows.specs.Rows.{tree_at, Scratch};
ghost use Rattle.blocks.specs.Blocks.{blocks_text};
ghost use Rattle.levels.specs.Levels.{Tells};

use levels::Found;
use rows::Rows;

// Whether the blocks from block a on are those of the tree of the rules of the set, which is the first n numbers of sets, over left fields from field on. Where all rules have one range from 0, the chain is one block, with the same rules below its end. Else it is looked at end by end. The ends of each chain in turn are written beside.
#[cycle(chain_is_run_is)]
fn chain_is(
    words: &[u32],
    rows: &Rows,
    sets: &mut [u16],
    n: usize,
    field: u32,
    left: u32,
    a: usize,
    ends: &mut [u32],
) -> Option<Found>
    requires { (16 * a ≤ length words.now) × (length words.now ≤ 16777216) × Scratch n left sets.old ends.old × (field + left ≤ 64) }
    ensures { Tells result words.now a (tree_at rows.now field left (take n sets.old)) }
{
    let set = &sets[..n];
    let first = rows::first_place(set);
    if left == 0 {
        return Some(Found { past: a, to: first });
    }
    let high = rows.high(first, field);
    if rows.flat(set, field, high) {
        if !levels::one_is(words, a, high) {
            return None;
        }
        let below = chain_is(words, rows, sets, n, field + 1, left - 1, a + 1, ends)?;
        if !levels::down_is(words, a, 0, below.to) {
            return None;
        }
        return Some(Found {
            past: below.past,
            to: a as u32,
        });
    }
    run_is(words, rows, sets, n, field, left, a, ends)
}

// As chain_is, where a field is left, end by end: first the ends of the chain; then, for each of them, what is below it, which begins at block b, and the link to that; then the levels above the ends. The set of the rules below an end is written behind this one. It and chain_is call each other, and the number of fields left falls.
#[cycle(chain_is_run_is)]
fn run_is(
    words: &[u32],
    rows: &Rows,
    sets: &mut [u16],
    n: usize,
    field: u32,
    left: u32,
    a: usize,
    ends: &mut [u32],
) -> Option<Found>
    requires { (0 < left) × (16 * a ≤ length words.now) × (length words.now ≤ 16777216) × Scratch n left sets.old ends.old × (field + left ≤ 64) }
    ensures { Tells result words.now a (tree_at rows.now field left (take n sets.old)) }
{
    let set = &sets[..n];
    let chain = levels::low_is(words, rows, set, field, a, ends)?;
    if left == 1 {
        return levels::last_is(words, rows, set, field, chain);
    }
    let first = chain.lowest.first;
    let mut b = chain.lowest.past();
    for i in 0..chain.ends {
        let e = levels::end_at(words, first, i);
        let k = rows.narrow(sets, n, field, e);
        let below = chain_is(words, rows, &mut sets[n..], k, field + 1, left - 1, b, ends)?;
        if !levels::down_is(words, first, i, below.to) {
            return None;
        }
        b = below.past;
    }
    if !levels::upper_is(words, chain) {
        return None;
    }
    let root = a as u32;
    Some(Found { past: b, to: root })
}

// Whether the words are exactly the blocks of the tree of the rules of the set, which is the first n numbers of sets, over the fields. The other numbers of sets, and ends, are scratch.
pub fn tree_is(
    words: &[u32],
    rules: &[u32],
    sets: &mut [u16],
    n: usize,
    fields: u32,
    ends: &mut [u32],
) -> bool
    requires { (length words.now ≤ 16777216) × Scratch n fields sets.old ends.old × (fields ≤ 62) }
    ensures { result ≡ same words.now (blocks_text (tree_at rules.now 0 fields (take n sets.old))) }
{
    let rows = Rows::of(rules);
    match chain_is(words, &rows, sets, n, 0, fields, 0, ends) {
        Some(found) => 16 * found.past == words.len(),
        None => false,
    }
}
