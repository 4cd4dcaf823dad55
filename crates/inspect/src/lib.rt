// The check of an image of any kind: whether all its words are those of the image of a table that a store can hold. Words are only read.
#![tactic(auto)]

ghost use Rattle.std.specs.Prelude.{◌≡◌, suc, ◌+◌, ◌≤◌, leb, length};
ghost use Rattle.model.specs.Lists.{same};
ghost use Rattle.model.specs.Rules.{cells};
ghost use Rattle.model.specs.Table.{front};
ghost use Rattle.model.specs.Ipv4.{kind_in};
ghost use Rattle.rows.specs.Rows.{tree_at, Scratch};
ghost use Rattle.table.specs.Rows.{kind_of, places as places_of};
ghost use Rattle.blocks.specs.Blocks.{blocks_text};
ghost use Rattle.frozen.specs.Frozen.{image_passes};
ghost use Rattle.inspect.specs.Body.{image_body};

use rows::Rows;
use table::Shape;

// Whether the tree of the n rules of the rows takes at most as many cells as a store can have.
fn cells_fit(rows: &[u32], n: u32, shape: &Shape, sets: &mut [u16], ends: &mut [u32]) -> bool
    requires { (n ≤ 512) × Scratch (suc n) (length shape.now.tops.now) sets.old ends.old }
    ensures { result ≡ leb (cells (tree_at rows.now 0 (length shape.now.tops.now) (places_of shape.now.width n))) 65536 }
{
    shape.places(n, sets);
    let fields = shape.tops.len() as u32;
    let rows = Rows::of(rows);
    count::count_chain(&rows, sets, (n as usize) + 1, 0, fields, 65536, ends) <= 65536
}

// Whether the words are exactly the blocks of the tree of the n rules of the rows.
fn blocks_are(
    words: &[u32],
    rows: &[u32],
    n: u32,
    shape: &Shape,
    sets: &mut [u16],
    ends: &mut [u32],
) -> bool
    requires { (length words.now ≤ 16777216) × (n ≤ 512) × Scratch (suc n) (length shape.now.tops.now) sets.old ends.old }
    ensures { result ≡ same words.now (blocks_text (tree_at rows.now 0 (length shape.now.tops.now) (places_of shape.now.width n))) }
{
    shape.places(n, sets);
    verify::tree_is(
        words,
        rows,
        sets,
        (n as usize) + 1,
        shape.tops.len() as u32,
        ends,
    )
}

// Whether what stands behind the head of an image with n rules, which is right, is right too, but for the two words before its blocks.
fn body_is(image: &[u32], n: u32, shape: &Shape, sets: &mut [u16], ends: &mut [u32]) -> bool
    requires { Scratch (suc shape.now.most) (length shape.now.tops.now) sets.old ends.old × (n ≤ shape.now.most) × (front (kind_of shape.now) ≤ length image.now) × (length image.now ≤ 16777216) }
    ensures { result ≡ image_body (kind_of shape.now) n image.now }
{
    let rows = audit::rows(image, shape);
    if !audit::table_is(rows, n, shape) {
        return false;
    }
    let blocks = &image[shape.rows_end() as usize + 2..];
    if !blocks_are(blocks, rows, n, shape, sets, ends) {
        return false;
    }
    cells_fit(rows, n, shape, sets, ends)
}

// The image check. The sets and the ends of the rules are written into scratch that is lent.
pub fn check_in(image: &[u32], shape: &Shape, sets: &mut [u16], ends: &mut [u32]) -> bool
    requires { Scratch (suc shape.now.most) (length shape.now.tops.now) sets.old ends.old }
    ensures { result ≡ image_passes (kind_of shape.now) image.now }
{
    let from = shape.rows_end() as usize;
    if image.len() < from + 2 {
        return false;
    }
    if 16777216 < image.len() {
        return false;
    }
    if image[0] != 0 {
        return false;
    }
    let n = image[1];
    if shape.most < n {
        return false;
    }
    if image[2] != shape.mark {
        return false;
    }
    if image[from] != 0 {
        return false;
    }
    if image[from + 1] != 0 {
        return false;
    }
    if !table::zeros(image, 3, shape.head as usize) {
        return false;
    }
    body_is(image, n, shape, sets, ends)
}

// The check of an image, of the kind that word 2 names.
pub fn check(image: &[u32]) -> bool
    ensures { result ≡ image_passes (kind_in image.now) image.now }
{
    ipv4::with_scratch(
        image,
        |shape, sets, ends| check_in(image, shape, sets, ends),
    )
}
