// The check of a store of any kind, and whether words have room for one. Words are only read.
#![tactic(auto)]

ghost use Rattle.std.specs.Prelude.{◌≡◌, ℕ, suc, ◌+◌, ◌*◌, ◌≤◌, length, get_or};
ghost use Rattle.model.specs.Lists.{same};
ghost use Rattle.rows.specs.Rows.{tree_at, Scratch};
ghost use Rattle.cells.specs.Text.{part};
ghost use Rattle.table.specs.Rows.{kind_of, Rowed, places as places_of};
ghost use Rattle.model.specs.Table.{front};
ghost use Rattle.layout.specs.Store.{size, rows_of, part_of, room_for, passes};
ghost use Rattle.layout.specs.Inner.{table_stands, body_stands};

use table::Shape;

// Whether c is within its limits and the words are enough for it.
pub fn room_for(words: &[u32], c: u32, shape: &Shape) -> bool
    ensures { result ≡ room_for (kind_of shape.now) c words.now }
{
    if c < (shape.tops.len() as u32) {
        return false;
    }
    if 65536 < c {
        return false;
    }
    (shape.rows_end() as usize) + (2 + 8 * (c as usize)) <= words.len()
}

// How many fields there are, by their tops. Each top fits a word, as the type of the slice says: a search that writes a record of values down rests on it.
pub fn fields(tops: &[u32]) -> u32
    requires { length tops.now ≤ 15 }
    ensures { (result ≡ length tops.now) × ((i : ℕ) → get_or tops.now i 0 ≤ 4294967295) }
{
    tops.len() as u32
}

// The rows of a store or of an image, as a slice of its words.
pub fn rows<'a>(words: &'a [u32], shape: &Shape) -> &'a [u32]
    requires { front (kind_of shape.now) ≤ length words.now }
    ensures { result.now ≡ rows_of (kind_of shape.now) words.now }
{
    &words[shape.head as usize..shape.rows_end() as usize]
}

// The part of a store of c cells, from its two links on, as a slice of its words.
pub fn part<'a>(words: &'a [u32], c: u32, shape: &Shape) -> &'a [u32]
    requires { (c ≤ 65536) × (size (kind_of shape.now) c ≤ length words.now) }
    ensures { result.now ≡ part_of (kind_of shape.now) c words.now }
{
    let from = shape.rows_end() as usize;
    &words[from..from + (2 + 8 * (c as usize))]
}

// Whether the rows are those of a table of n rules within the limits.
pub fn table_is(rows: &[u32], n: u32, shape: &Shape) -> bool
    requires { Rowed (kind_of shape.now) n rows.now }
    ensures { result ≡ table_stands (kind_of shape.now) n rows.now }
{
    if !table::rows_are(rows, n, shape) {
        return false;
    }
    if !table::rising(rows, n, shape) {
        return false;
    }
    table::all_right(rows, n, shape)
}

// Whether the part of the words from the two links on is the tree of the n rules of the rows, and then the free chain.
fn tree_is(
    words: &[u32],
    c: u32,
    rows: &[u32],
    n: u32,
    shape: &Shape,
    sets: &mut [u16],
    ends: &mut [u32],
) -> bool
    requires { (length words.now ≡ 2 + 8 * c) × (c ≤ 65536) × (n ≤ 512) × Scratch (suc n) (length shape.now.tops.now) sets.old ends.old }
    ensures { result ≡ same words.now (part c (tree_at rows.now 0 (length shape.now.tops.now) (places_of shape.now.width n))) }
{
    shape.places(n, sets);
    compare::part_is(
        words,
        c,
        rows,
        sets,
        (n as usize) + 1,
        shape.tops.len() as u32,
        ends,
    )
}

// Whether what stands behind the head of a store with n rules, which is right, is right too.
fn body_is(words: &[u32], c: u32, n: u32, shape: &Shape, sets: &mut [u16], ends: &mut [u32]) -> bool
    requires { Scratch (suc shape.now.most) (length shape.now.tops.now) sets.old ends.old × (n ≤ shape.now.most) × (c ≤ 65536) × (size (kind_of shape.now) c ≤ length words.now) }
    ensures { result ≡ body_stands (kind_of shape.now) c n words.now }
{
    let rows = rows(words, shape);
    if !table_is(rows, n, shape) {
        return false;
    }
    tree_is(part(words, c, shape), c, rows, n, shape, sets, ends)
}

// The store check. The sets and the ends of the rules are written into scratch that is lent.
pub fn check(words: &[u32], shape: &Shape, sets: &mut [u16], ends: &mut [u32]) -> bool
    requires { Scratch (suc shape.now.most) (length shape.now.tops.now) sets.old ends.old }
    ensures { result ≡ passes (kind_of shape.now) words.now }
{
    if words.len() < 3 {
        return false;
    }
    let c = words[0];
    if !room_for(words, c, shape) {
        return false;
    }
    let n = words[1];
    if shape.most < n {
        return false;
    }
    if words[2] != shape.mark {
        return false;
    }
    if !table::zeros(words, 3, shape.head as usize) {
        return false;
    }
    body_is(words, c, n, shape, sets, ends)
}
