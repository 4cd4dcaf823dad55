// The blocks of the tree that a store's cells give by their links: counted, and written into words that have room for them. The cells are the part of a store from its two links on. They are only read, each on its way once or twice.
#![tactic(auto)]

ghost use Rattle.std.specs.Prelude.{◌≡◌, cond, ◌++◌, ◌+◌, ◌*◌, ◌/◌, ◌≤◌, eqb, length, get_or, drop};
ghost use Rattle.search.specs.Links.{tree_in};
ghost use Rattle.blocks.specs.Blocks.{top_end, down_mark, blocks, blocks_text};
ghost use Rattle.blocks.specs.Written.{entered, Level, Links, Raised, Roomy, Named, Written};
ghost use Rattle.lay.specs.Chain.{cells_on};

use blocks::{Chain, DOWN_MARK, Entry, Span, TOP_END};

mod links;

// How many cells the chain at cell k has.
fn chain_length(part: &[u32], c: u32, k: u32) -> usize
    requires { (length part.now ≡ 2 + 8 * c) × (c ≤ 65536) }
    ensures { (result ≡ length (cells_on part.now c c k)) × (result ≤ c) }
{
    links::chain_at(part, c, k).count()
}

// The number of blocks of the tree at cell k, with left fields from this one on.
fn count_chain(part: &[u32], c: u32, left: u32, k: u32) -> usize
    requires { (length part.now ≡ 2 + 8 * c) × (c ≤ 65536) × (left ≤ 64) × (blocks (tree_in part.now c left k) ≤ 65536) }
    ensures { result ≡ blocks (tree_in part.now c left k) }
{
    if left == 0 {
        return 0;
    }
    let m = chain_length(part, c, k);
    let mut total = blocks::blocks_for(m);
    if left == 1 {
        return total;
    }
    for cell in links::chain_at(part, c, k) {
        let below = count_chain(part, c, left - 1, links::word_of(part, cell, 2));
        total += below;
    }
    total
}

// The number of blocks of the tree that a part with so many fields gives, where they are not too many.
pub fn count(part: &[u32], c: u32, fields: u32) -> usize
    requires { (length part.now ≡ 2 + 8 * c) × (c ≤ 65536) × (fields ≤ 64) × (blocks (tree_in part.now c fields (get_or part.now 1 0)) ≤ 65536) }
    ensures { result ≡ blocks (tree_in part.now c fields (get_or part.now 1 0)) }
{
    count_chain(part, c, fields, part[1])
}

// Writes block b with unused ends and no links.
fn blank(words: &mut [u32], b: usize)
    requires { 16 * (b + 1) ≤ length words.old }
    ensures { Level words.old words.new b 1 (λ i. top_end) (λ i. 0) }
{
    let links = 16 * b + 8;
    words[16 * b..links].fill(TOP_END);
    words[links..links + 8].fill(0);
}

// Writes the blocks of a level so.
fn clear(words: &mut [u32], level: Span)
    requires { 16 * (level.first + level.count) ≤ length words.old }
    ensures { Level words.old words.new level.first level.count (λ i. top_end) (λ i. 0) }
{
    for j in 0..level.count {
        blank(words, level.first + j);
    }
}

// Writes an end and its link at place j of the level that stands from block b on.
fn put_entry(words: &mut [u32], b: usize, j: usize, entry: Entry)
    requires { 16 * (b + j / 8) + 16 ≤ length words.old }
    ensures { words.new ≡ entered words.old b j entry.end entry.link }
{
    let at = 16 * (b + j / 8);
    let i = j % 8;
    words[at + i] = entry.end;
    words[at + (8 + i)] = entry.link;
}

// Writes the blocks of a level that lead to those of the level below it.
fn put_links(words: &mut [u32], above: Span, below: Span)
    requires { (above.first + above.count ≤ below.first) × (16 * (below.first + below.count) ≤ length words.old) × (below.first + below.count ≤ 16777216) }
    ensures { Links words.old words.new above.first above.count below.first below.count }
{
    for j in 0..8 * above.count {
        let entry = below.entry_above(words, j);
        put_entry(words, above.first, j, entry);
    }
}

// Writes the levels of a chain above the lowest, which stands.
fn put_upper(words: &mut [u32], chain: Chain)
    requires { (16 * (chain.lowest.first + chain.lowest.count) ≤ length words.old) × (chain.lowest.first + chain.lowest.count ≤ 16777216) }
    ensures { Raised words.old words.new chain.root chain.lowest.first chain.ends }
{
    let mut level = chain.lowest;
    while let Some(above) = level.above() {
        put_links(words, above, level);
        level = above;
    }
}

// The link down to a chain at block b, or where no field is left to the place that a cell names.
fn down_to(left: u32, place: u32, b: usize) -> u32
    requires { (b ≤ 16777216) × (left ≡ 0 → place ≤ 65535) }
    ensures { result ≡ down_mark + cond (eqb left 0) place b }
{
    if left == 0 {
        return DOWN_MARK + place;
    }
    DOWN_MARK + (b as u32)
}

// Writes the blocks of the tree at cell k, with left fields from this one on, from block a on: what is below each cell of its chain, with the cell's end and the link down, and then the levels above these. Answers the block behind them.
fn write_chain(words: &mut [u32], part: &[u32], c: u32, left: u32, k: u32, a: usize) -> usize
    requires { (length part.now ≡ 2 + 8 * c) × (c ≤ 65536) × (left ≤ 64) × Roomy words.old a (tree_in part.now c left k) × Named (tree_in part.now c left k) }
    ensures { Written words.old words.new a result (tree_in part.now c left k) }
{
    if left == 0 {
        return a;
    }
    let chain = Chain::at(a, chain_length(part, c, k));
    let lowest = chain.lowest;
    clear(words, lowest);
    let mut b = lowest.past();
    for (i, cell) in links::chain_at(part, c, k).enumerate() {
        let end = links::word_of(part, cell, 0);
        let down = links::word_of(part, cell, 2);
        let past = write_chain(words, part, c, left - 1, down, b);
        let link = down_to(left - 1, down, b);
        put_entry(words, lowest.first, i, Entry { end, link });
        b = past;
    }
    put_upper(words, chain);
    b
}

// Writes the blocks of the tree that a part with so many fields gives into words that have room for them. The words behind them stay.
pub fn write(words: &mut [u32], part: &[u32], c: u32, fields: u32)
    requires { (length part.now ≡ 2 + 8 * c) × (c ≤ 65536) × (fields ≤ 64) × (16 * blocks (tree_in part.now c fields (get_or part.now 1 0)) ≤ length words.old) × (blocks (tree_in part.now c fields (get_or part.now 1 0)) ≤ 65536) × Named (tree_in part.now c fields (get_or part.now 1 0)) }
    ensures { words.new ≡ blocks_text (tree_in part.now c fields (get_or part.now 1 0)) ++ drop (16 * blocks (tree_in part.now c fields (get_or part.now 1 0))) words.old }
{
    write_chain(words, part, c, fields, part[1], 0);
}
