// The tree of a set of rules, built in the free cells of a store, chain by chain. The words from the rows on are lent, and base, the word where the part with the links and the cells begins: what stands before it are the rules, which stay. The number of cells c stands elsewhere and is passed beside the words; as a link it says "no cell".
#![tactic(auto)]

ghost use Rattle.std.specs.Prelude.{◌≡◌, ◌++◌, ◌+◌, ◌*◌, ◌≤◌, ◌<◌, length, take, drop};
ghost use Rattle.model.specs.Rules.{ends as ends_of};
ghost use Rattle.rows.specs.Rows.{field_at, tree_at, first_of};
ghost use Rattle.cells.specs.Text.{only_down, part};
ghost use Rattle.cells.specs.Planted.{Plantable};
ghost use Rattle.cells.specs.States.{Spare, Laid, Narrows, Buildable, Built};

use cells::Below;
use rows::Rows;

// Lays the run of the ends of the rules of the set in a field. The ends are written beside, over what stood there.
fn build_run(
    words: &mut [u32],
    base: usize,
    c: u32,
    set: &[u16],
    field: u32,
    ends: &mut [u32],
) -> u32
    requires { (base ≤ length words.old) × Spare (drop base words.old) c (length (ends_of (field_at (take base words.old) field) set.now)) × (2 * length set.now ≤ length ends.old) }
    ensures { Laid base words.old words.new result c (ends_of (field_at (take base words.old) field) set.now) }
{
    let n = Rows::of(&words[..base]).ends_of(set, field, ends);
    cells::lay_run(&mut words[base..], c, &ends[..n])
}

// Writes behind the set, which is the first n numbers of sets, the places of those of its rules whose range in a field holds v, and says how many they are.
fn narrowed(words: &[u32], base: usize, sets: &mut [u16], n: usize, field: u32, v: u32) -> usize
    requires { (base ≤ length words.now) × (n + n ≤ length sets.old) }
    ensures { Narrows (take base words.now) sets.old sets.new n result field v }
{
    Rows::of(&words[..base]).narrow(sets, n, field, v)
}

// What stands where no field is left: where the row of the first rule of the set begins.
fn build_leaf(set: &[u16]) -> Below
    ensures { result ≡ only_down (first_of set.now) }
{
    Below {
        down: rows::first_place(set),
        side: 0,
    }
}

// Builds the tree of the rules of the set, which is the first n numbers of sets, over as many fields as are left, from a field on, in the first free cells. Where all rules have one range from 0, the chain is one cell, with the same rules below it; else build_under builds it. Answers what a cell above it says. The ends of each run in turn are written beside.
#[cycle(build_chain_build_under)]
fn build_chain(
    words: &mut [u32],
    base: usize,
    c: u32,
    sets: &mut [u16],
    n: usize,
    field: u32,
    left: u32,
    ends: &mut [u32],
) -> Below
    requires { Buildable words.old base c sets.old n field left ends.old }
    ensures { Built base words.old words.new result c (tree_at (take base words.old) field left (take n sets.old)) }
{
    let set = &sets[..n];
    if left == 0 {
        return build_leaf(set);
    }
    let rows = Rows::of(&words[..base]);
    let high = rows.high(rows::first_place(set), field);
    if rows.flat(set, field, high) {
        let one = cells::build_one(words, base, c, high);
        if left == 1 {
            cells::write_below(words, base, one, build_leaf(set));
            return Below { down: one, side: 0 };
        }
        let below = build_chain(words, base, c, sets, n, field + 1, left - 1, ends);
        cells::write_below(words, base, one, below);
        return Below { down: one, side: 0 };
    }
    build_under(words, base, c, sets, n, field, left, ends)
}

// As build_chain, where a field is left, end by end: the run of the field's ends, and then for each of its cells the tree of the rules that cover its end, whose set is written behind this one. It and build_chain call each other, and the number of fields left falls.
#[cycle(build_chain_build_under)]
fn build_under(
    words: &mut [u32],
    base: usize,
    c: u32,
    sets: &mut [u16],
    n: usize,
    field: u32,
    left: u32,
    ends: &mut [u32],
) -> Below
    requires { (0 < left) × Buildable words.old base c sets.old n field left ends.old }
    ensures { Built base words.old words.new result c (tree_at (take base words.old) field left (take n sets.old)) }
{
    let first = words[base];
    let lowest = build_run(words, base, c, &sets[..n], field, ends);
    let past = words[base];
    for k in first..past {
        let end = cells::end_of(words, base, k);
        let m = narrowed(words, base, sets, n, field, end);
        let below = build_chain(words, base, c, &mut sets[n..], m, field + 1, left - 1, ends);
        cells::write_below(words, base, k, below);
    }
    Below {
        down: lowest,
        side: 0,
    }
}

// Builds the tree of the rules of the set, which is the first n numbers of sets, in the part of a store with no tree, which has room for it. The words before base are the rules, and stay; the other numbers of sets, and ends, are scratch.
pub fn build(
    words: &mut [u32],
    base: usize,
    c: u32,
    sets: &mut [u16],
    n: usize,
    fields: u32,
    ends: &mut [u32],
)
    requires { Plantable words.old base c sets.old n fields ends.old }
    ensures { words.new ≡ take base words.old ++ part c (tree_at (take base words.old) 0 fields (take n sets.old)) }
{
    let first = build_chain(words, base, c, sets, n, 0, fields, ends);
    words[base + 1] = first.down;
}
