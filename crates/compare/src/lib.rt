// Whether words are exactly the text of a tree and then the free chain. The tree is not made: its chains are gone through in the order in which they would be built, and each cell is compared with what would be written there.
#![tactic(auto)]

ghost use Rattle.std.specs.Prelude.{◌≡◌, ◌+◌, ◌*◌, ◌≤◌, ◌<◌, length, take};
ghost use Rattle.rows.specs.Rows.{tree_at, Scratch};
ghost use Rattle.cells.specs.Text.{part};
ghost use Rattle.model.specs.Lists.{same};
ghost use Rattle.stands.specs.Stands.{Room, told};

use cells::Below;
use rows::Rows;
use stands::Stands;

// Whether the cells from k on are the tree of the rules of the set, which is the first n numbers of sets, over left fields from field on. Where all rules have one range from 0, the chain is one cell, with the same rules below it. Else it is compared end by end. The ends of each run in turn are written beside.
#[cycle(compare_chain_compare_run)]
fn compare_chain(
    words: &[u32],
    c: u32,
    rules: &[u32],
    sets: &mut [u16],
    n: usize,
    field: u32,
    left: u32,
    k: u32,
    ends: &mut [u32],
) -> Option<Stands>
    requires { Room words.now c × Scratch n left sets.old ends.old × (field + left ≤ 64) × (k ≤ c) }
    ensures { result ≡ told words.now c k (tree_at rules.now field left (take n sets.old)) }
{
    let set = &sets[..n];
    if left == 0 {
        return Some(stands::leaf(set, k));
    }
    let rows = Rows::of(rules);
    let high = rows.high(rows::first_place(set), field);
    if !rows.flat(set, field, high) {
        return compare_run(words, c, rules, sets, n, field, left, k, ends);
    }
    if !stands::one_is(words, c, high, k) {
        return None;
    }
    let under = if left == 1 {
        stands::leaf(set, k + 1)
    } else {
        compare_chain(words, c, rules, sets, n, field + 1, left - 1, k + 1, ends)?
    };
    stands::rest_is(words, c, k, under.says).then_some(Stands {
        past: under.past,
        says: Below { down: k, side: 0 },
    })
}

// As compare_chain, where a field is left, end by end: first the ends of the chain's run; then, cell by cell, what is below each: it begins at cell b, and the set of its rules is written behind this one. It and compare_chain call each other, and the number of fields left falls.
#[cycle(compare_chain_compare_run)]
fn compare_run(
    words: &[u32],
    c: u32,
    rules: &[u32],
    sets: &mut [u16],
    n: usize,
    field: u32,
    left: u32,
    k: u32,
    ends: &mut [u32],
) -> Option<Stands>
    requires { (0 < left) × Room words.now c × Scratch n left sets.old ends.old × (field + left ≤ 64) × (k ≤ c) }
    ensures { result ≡ told words.now c k (tree_at rules.now field left (take n sets.old)) }
{
    let set = &sets[..n];
    let run = stands::run_is(words, c, rules, set, field, k, ends)?;
    if left == 1 {
        return stands::last_is(words, c, rules, set, field, k, run);
    }
    let rows = Rows::of(rules);
    let mut b = run.past;
    for i in k..run.past {
        let e = stands::end_at(words, c, i);
        let m = rows.narrow(sets, n, field, e);
        let under = compare_chain(
            words,
            c,
            rules,
            &mut sets[n..],
            m,
            field + 1,
            left - 1,
            b,
            ends,
        )?;
        if !stands::rest_is(words, c, i, under.says) {
            return None;
        }
        b = under.past;
    }
    Some(Stands {
        past: b,
        says: run.says,
    })
}

// Whether the words, which are the part of a store of c cells from its two links on, are those of the tree of the rules of the set, which is the first n numbers of sets: the links, the tree from cell 0 on, and then the free chain with all other cells. The other numbers of sets, and ends, are scratch.
pub fn part_is(
    words: &[u32],
    c: u32,
    rules: &[u32],
    sets: &mut [u16],
    n: usize,
    fields: u32,
    ends: &mut [u32],
) -> bool
    requires { (length words.now ≡ 2 + 8 * c) × (c ≤ 65536) × Scratch n fields sets.old ends.old × (fields ≤ 62) }
    ensures { result ≡ same words.now (part c (tree_at rules.now 0 fields (take n sets.old))) }
{
    let Some(tree) = compare_chain(words, c, rules, sets, n, 0, fields, 0, ends) else {
        return false;
    };
    words[0] == tree.past && words[1] == tree.says.down && stands::free_from(words, c, tree.past)
}
