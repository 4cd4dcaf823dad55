// Whether the ends of a chain, their links and the levels above them stand where they should: the parts of a comparison of words with the blocks of a tree.
#![tactic(auto)]

ghost use Rattle.std.specs.Prelude.{◌≡◌, ◌&&◌, ◌||◌, ◌+◌, ◌*◌, ◌/◌, ◌≤◌, ltb, eqb, length, get_or};
ghost use Rattle.rows.specs.Rows.{tree_at};
ghost use Rattle.blocks.specs.Blocks.{down_mark};
ghost use Rattle.blocks.specs.Written.{end_place, link_place, padded};
ghost use Rattle.levels.specs.Levels.{Answers, Tells, TellsEnds, Low, One, LinksStand, UpperStand, EndsStand};

use blocks::{Chain, DOWN_MARK, Entry, Span, TOP_END};
use rows::Rows;

// What is told of a tree whose blocks stand: the block behind the last one, and where the link above leads.
#[derive(Clone, Copy)]
pub struct Found {
    pub past: usize,
    pub to: u32,
}

// The end of place j of the level that stands from block b on.
pub fn end_at(words: &[u32], b: usize, j: usize) -> u32
    requires { 16 * (b + j / 8) + 16 ≤ length words.now }
    ensures { result ≡ get_or words.now (end_place b j) 0 }
{
    words[16 * (b + j / 8) + j % 8]
}

// The link of that place.
fn link_at(words: &[u32], b: usize, j: usize) -> u32
    requires { 16 * (b + j / 8) + 16 ≤ length words.now }
    ensures { result ≡ get_or words.now (link_place b j) 0 }
{
    words[16 * (b + j / 8) + (8 + j % 8)]
}

// Whether an end and a link stand there.
fn entry_is(words: &[u32], b: usize, j: usize, entry: Entry) -> bool
    requires { 16 * (b + j / 8) + 16 ≤ length words.now }
    ensures { result ≡ (eqb (get_or words.now (end_place b j) 0) entry.end && eqb (get_or words.now (link_place b j) 0) entry.link) }
{
    end_at(words, b, j) == entry.end && link_at(words, b, j) == entry.link
}

// Whether the blocks of a level lead to those of the level below it: the last end of each and the link to it, and behind them unused ends and links.
fn links_are(words: &[u32], above: Span, below: Span) -> bool
    requires { (above.first + above.count ≤ below.first) × (16 * (below.first + below.count) ≤ length words.now) × (below.first + below.count ≤ 16777216) }
    ensures { LinksStand result words.now above.first above.count below.first below.count }
{
    (0..8 * above.count).all(|j| entry_is(words, above.first, j, below.entry_above(words, j)))
}

// Whether the levels of a chain above the lowest are right.
pub fn upper_is(words: &[u32], chain: Chain) -> bool
    requires { (16 * (chain.lowest.first + chain.lowest.count) ≤ length words.now) × (chain.lowest.first + chain.lowest.count ≤ 16777216) }
    ensures { UpperStand result words.now chain.root chain.lowest.first chain.ends }
{
    let mut level = chain.lowest;
    while let Some(above) = level.above() {
        if !links_are(words, above, level) {
            return false;
        }
        level = above;
    }
    true
}

// Whether place j has its end; behind the ends an unused one, and no link.
fn end_is(words: &[u32], b: usize, j: usize, ends: &[u32]) -> bool
    requires { 16 * (b + j / 8) + 16 ≤ length words.now }
    ensures { result ≡ (eqb (get_or words.now (end_place b j) 0) (padded ends.now (length ends.now) j) && (ltb j (length ends.now) || eqb (get_or words.now (link_place b j) 0) 0)) }
{
    match ends.get(j) {
        Some(end) => end_at(words, b, j) == *end,
        None => end_at(words, b, j) == TOP_END && link_at(words, b, j) == 0,
    }
}

// Whether the blocks of a level have these ends, and unused ends and links behind them.
fn ends_are(words: &[u32], level: Span, ends: &[u32]) -> bool
    requires { 16 * (level.first + level.count) ≤ length words.now }
    ensures { Answers result (EndsStand words.now level.first level.count ends.now (length ends.now)) }
{
    (0..8 * level.count).all(|j| end_is(words, level.first, j, ends))
}

// Whether the link of place j leads down to a block, or to a rule's row.
pub fn down_is(words: &[u32], b: usize, j: usize, to: u32) -> bool
    requires { 16 * (b + j / 8) + 16 ≤ length words.now }
    ensures { result ≡ eqb (get_or words.now (link_place b j) 0) (down_mark + to) }
{
    link_at(words, b, j).checked_sub(DOWN_MARK) == Some(to)
}

// The chain of the rules of the set in a field, which begins at block a, where its lowest level has the ends of these rules and stands within the words. The ends are written beside, over what stood there.
pub fn low_is(
    words: &[u32],
    rows: &Rows,
    set: &[u16],
    field: u32,
    a: usize,
    ends: &mut [u32],
) -> Option<Chain>
    requires { (16 * a ≤ length words.now) × (length words.now ≤ 16777216) × (2 * length set.now ≤ length ends.old) }
    ensures { TellsEnds result words.now rows.now field set.now a }
{
    let m = rows.ends_of(set, field, ends);
    let chain = Chain::at(a, m);
    if words.len() / 16 < chain.lowest.past() {
        return None;
    }
    if !ends_are(words, chain.lowest, &ends[..m]) {
        return None;
    }
    Some(chain)
}

// Whether block a is the whole chain of one end, but for its link.
pub fn one_is(words: &[u32], a: usize, end: u32) -> bool
    ensures { Answers result (One words.now a end) }
{
    if words.len() / 16 <= a {
        return false;
    }
    ends_are(words, Span { first: a, count: 1 }, &[end])
}

// Whether the links of a chain of the last field, whose ends stand, lead each to the first rule of the set that covers its end, and whether the levels above the ends are right.
pub fn last_is(words: &[u32], rows: &Rows, set: &[u16], field: u32, chain: Chain) -> Option<Found>
    requires { Low words.now rows.now field set.now chain.root chain.ends chain.lowest.first × (length words.now ≤ 16777216) }
    ensures { Tells result words.now chain.root (tree_at rows.now field 1 set.now) }
{
    let first = chain.lowest.first;
    for i in 0..chain.ends {
        let e = end_at(words, first, i);
        let named = rows.least(set, field, e);
        if !down_is(words, first, i, named) {
            return None;
        }
    }
    if !upper_is(words, chain) {
        return None;
    }
    Some(Found {
        past: chain.lowest.past(),
        to: chain.root as u32,
    })
}
