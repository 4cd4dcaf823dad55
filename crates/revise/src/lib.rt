// A list of edits of a store of any kind, all or none: the list is decided while the words are only read, and then the rows are edited one edit after the other, and the tree is dropped and built once. The promise is one equation for the answer and for every lent word, whatever the words hold. The sets and the ends of the rules are written into scratch that is lent.
#![tactic(auto)]

ghost use Rattle.std.specs.Prelude.{◌≡◌, suc, ◌+◌, ◌*◌, ◌≤◌, length};
ghost use Rattle.rows.specs.Rows.{Scratch};
ghost use Rattle.table.specs.Rows.{kind_of};
ghost use Rattle.series.specs.Edits.{edits_from, list_says, list_words};

use series::Listed;
use table::Shape;

// Does a list of edits, which are lent as numbers, a row and a word more for each: all of them, or none.
pub fn edit_list(
    words: &mut [u32],
    edits: &[u32],
    count: usize,
    shape: &Shape,
    set: &mut [u16],
    sets: &mut [u16],
    ends: &mut [u32],
) -> Listed
    requires { (suc shape.now.most ≤ length set.old) × Scratch (suc shape.now.most) (length shape.now.tops.now) sets.old ends.old × (count ≤ 32 → (shape.now.width + 1) * count ≤ length edits.now) }
    ensures { (result ≡ list_says (kind_of shape.now) words.old (edits_from (length shape.now.tops.now) (shape.now.width + 1) count edits.now 0)) × (words.new ≡ list_words (kind_of shape.now) words.old (edits_from (length shape.now.tops.now) (shape.now.width + 1) count edits.now 0)) }
{
    let said = lists::decide(words, edits, count, shape, set, sets, ends);
    if said.answer != 0 {
        return said;
    }
    let c = words[0];
    let from = shape.rows_end() as usize;
    let end = from + (2 + 8 * (c as usize));
    cells::drop(&mut words[from..end], c, shape.tops.len() as u32);
    lists::apply_all(&mut words[..from], edits, count as u32, shape);
    let n = words[1];
    plant::plant(words, c, n, shape, sets, ends);
    said
}
