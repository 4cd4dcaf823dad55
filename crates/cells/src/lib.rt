// The tree in the cells of a store, in its part from the two links on: word 0 of that is the first cell of the free chain, word 1 is the cell where a walk begins, and cell k is the eight words from 2 + 8 k on. This crate says what stands there for a tree, lays the runs of one, and drops one; the crate build builds one. The functions that have a base are lent the words from the rows on, and the part begins at base: what stands before it are the rules, which stay. The others are lent the part alone. The number of cells c stands elsewhere and is passed beside the words; as a link it says "no cell".
#![tactic(auto)]

ghost use Rattle.std.specs.Prelude.{◌≡◌, [], ◌∷◌, ◌+◌, ◌*◌, ◌≤◌, ◌<◌, ◌-◌, length, set, drop};
ghost use Rattle.model.specs.Rules.{stop};
ghost use Rattle.cells.specs.Text.{at, cell_word, below_at, only_down, part};
ghost use Rattle.cells.specs.Planted.{Planted};
ghost use Rattle.cells.specs.States.{first_free, wrote, Spare, Lays, Hangs, Laid, SomeRows, Gives, SomeHeld, SomeLoc, Drops};

// What is below a cell, its words 2 and 3: the cell where a walk of the next field begins, or in the last field the word at which the row of the rule that the location names begins; and what stands beside that, which is nothing, 0.
#[derive(Clone, Copy)]
pub struct Below {
    pub down: u32,
    pub side: u32,
}

// Word f of cell k.
fn word_of(words: &[u32], k: u32, f: usize) -> u32
    requires { at k f < length words.now }
    ensures { result ≡ cell_word words.now k f }
{
    words[2 + 8 * (k as usize) + f]
}

// Writes the end, the next cell and what is below it into cell k.
fn write_cell(words: &mut [u32], k: u32, end: u32, next: u32, below: Below)
    requires { at k 3 < length words.old }
    ensures { words.new ≡ wrote words.old k end next below }
{
    let i = 2 + 8 * (k as usize);
    words[i] = end;
    words[i + 1] = next;
    words[i + 2] = below.down;
    words[i + 3] = below.side;
}

// What is below cell k.
fn below_of(words: &[u32], k: u32) -> Below
    requires { at k 3 < length words.now }
    ensures { result ≡ below_at words.now k }
{
    Below {
        down: word_of(words, k, 2),
        side: word_of(words, k, 3),
    }
}

// Writes what is below cell k, where the part begins at base.
pub fn write_below(words: &mut [u32], base: usize, k: u32, below: Below)
    requires { base + at k 3 < length words.old }
    ensures { Hangs base words.old words.new k below }
{
    let i = base + (2 + 8 * (k as usize) + 2);
    words[i] = below.down;
    words[i + 1] = below.side;
}

// The end of cell k, where the part begins at base.
pub fn end_of(words: &[u32], base: usize, k: u32) -> u32
    requires { base + at k 0 < length words.now }
    ensures { result ≡ cell_word (drop base words.now) k 0 }
{
    let i = base + (2 + 8 * (k as usize));
    words[i]
}

// Takes the first cell off the free chain.
fn take_cell(words: &mut [u32]) -> u32
    requires { at (first_free words.old) 1 < length words.old }
    ensures { (result ≡ first_free words.old) × (words.new ≡ set words.old 0 (cell_word words.old (first_free words.old) 1)) }
{
    let k = words[0];
    let next = word_of(words, k, 1);
    words[0] = next;
    k
}

// Clears a cell and puts it in front of the free chain.
fn give_cell(words: &mut [u32], k: u32)
    requires { at k 3 < length words.old }
    ensures { words.new ≡ set (wrote words.old k 0 (first_free words.old) (only_down 0)) 0 k }
{
    let next = words[0];
    write_cell(words, k, 0, next, Below { down: 0, side: 0 });
    words[0] = k;
}

// Makes any words the part of a store with no tree: all its cells are on the free chain.
pub fn clear(words: &mut [u32], c: u32)
    requires { (length words.old ≡ 2 + 8 * c) × (c ≤ 65536) }
    ensures { words.new ≡ part c stop }
{
    words.fill(0);
    words[0] = c;
    words[1] = c;
    for cell in (0..c).rev() {
        give_cell(words, cell);
    }
}

// Takes a cell and makes a run of one end of it, with nothing below.
pub fn build_one(words: &mut [u32], base: usize, c: u32, end: u32) -> u32
    requires { (base ≤ length words.old) × Spare (drop base words.old) c 1 }
    ensures { Laid base words.old words.new result c (end ∷ []) × (cell_word (drop base words.new) result 0 ≡ end) }
{
    let part = &mut words[base..];
    let k = take_cell(part);
    write_cell(part, k, end, c, Below { down: 0, side: 0 });
    k
}

// Takes a cell for each of the ends, which rise, from the highest down, and makes a run of them with nothing below; answers the cell of the lowest end, or c where there is no end.
pub fn lay_run(words: &mut [u32], c: u32, ends: &[u32]) -> u32
    requires { Spare words.old c (length ends.now) }
    ensures { Lays words.old words.new result c ends.now }
{
    let mut lowest = c;
    for &end in ends.iter().rev() {
        let k = take_cell(words);
        write_cell(words, k, end, lowest, Below { down: 0, side: 0 });
        lowest = k;
    }
    lowest
}

// Gives the cells of a run back, its lowest end first, which is at the cell first.
fn give_run(words: &mut [u32], c: u32, first: u32)
    requires { SomeRows words.old first c }
    ensures { Gives words.old words.new first c }
{
    let mut k = first;
    while k != c {
        let next = word_of(words, k, 1);
        give_cell(words, k);
        k = next;
    }
}

// Frees the chain that is below a cell, with as many fields left, its own among them: first all that is below each of its locations, then its own cells. It and free_location call each other, and the number of fields left falls.
#[cycle(free_chain_free_location)]
fn free_chain(words: &mut [u32], c: u32, chain: Below, fields: u32)
    requires { (0 < fields) × SomeHeld words.old fields chain c }
    ensures { Drops words.old words.new fields chain c }
{
    let first = chain.down;
    let mut k = first;
    while k != c {
        free_location(words, c, k, fields);
        k = word_of(words, k, 1);
    }
    give_run(words, c, first);
}

// Frees all that is below the location at cell k. In the last field that is nothing.
#[cycle(free_chain_free_location)]
fn free_location(words: &mut [u32], c: u32, k: u32, fields: u32)
    requires { SomeLoc words.old fields k c }
    ensures { Drops words.old words.new (fields - 1) (below_at words.old k) c }
{
    if fields == 1 {
        return;
    }
    let below = below_of(words, k);
    free_chain(words, c, below, fields - 1);
}

// Drops the tree of a part over as many fields: all its cells are on the free chain then.
pub fn drop(words: &mut [u32], c: u32, fields: u32)
    requires { Planted words.old c fields }
    ensures { words.new ≡ part c stop }
{
    let first = Below {
        down: words[1],
        side: 0,
    };
    free_chain(words, c, first, fields);
    words[1] = c;
}
