// A list of edits of a store of any kind in its two halves: what it answers, while the words are only read, and its edits done in the front of the store, its head and its rows, one after the other. The sets and the ends of the rules are written into scratch that is lent.
#![tactic(auto)]

ghost use Rattle.std.specs.Prelude.{◌≡◌, List, ◌∷◌, ℕ, suc, ◌+◌, ◌*◌, ◌≤◌, length};
ghost use Rattle.model.specs.Table.{Table};
ghost use Rattle.rows.specs.Rows.{Scratch};
ghost use Rattle.table.specs.Rows.{kind_of};
ghost use Rattle.layout.specs.Inner.{front_text};
ghost use Rattle.series.specs.Edits.{Edit, edited, edited_all, edit_in, edits_from, list_says};
ghost use Rattle.lists.specs.Inner.{Fronts, Fronted};

use refusal::Refusal;
use series::Listed;
use table::Shape;

// What a list of edits answers.
pub fn decide(
    words: &[u32],
    edits: &[u32],
    count: usize,
    shape: &Shape,
    set: &mut [u16],
    sets: &mut [u16],
    ends: &mut [u32],
) -> Listed
    requires { (suc shape.now.most ≤ length set.old) × Scratch (suc shape.now.most) (length shape.now.tops.now) sets.old ends.old }
    ensures { result ≡ list_says (kind_of shape.now) words.now (edits_from (length shape.now.tops.now) (shape.now.width + 1) count edits.now 0) }
{
    if count == 0 {
        return Listed::of(Err(Refusal::ListLength), 0);
    }
    if 32 < count {
        return Listed::of(Err(Refusal::ListLength), 0);
    }
    if !audit::check(words, shape, sets, ends) {
        return Listed::of(Err(Refusal::Damaged), 1);
    }
    let head = shape.head as usize;
    let from = shape.rows_end() as usize;
    series::first_refusal(
        &words[head..from],
        words[1],
        words[0],
        edits,
        count as u32,
        shape,
        set,
        sets,
        ends,
    )
}

// Does the edit that begins at a word of the list in the front of a store, its head and its rows.
fn apply(front: &mut [u32], edits: &[u32], at: usize, shape: &Shape)
    requires { (at + (3 + 2 * length shape.now.tops.now) ≤ length edits.now) × ((rest : List Edit) × Fronted (kind_of shape.now) (edit_in (length shape.now.tops.now) edits.now at ∷ rest) front.old) }
    ensures { (c : ℕ) (t : Table) (rest : List Edit) → Fronts (kind_of shape.now) c t (edit_in (length shape.now.tops.now) edits.now at ∷ rest) front.old → Fronts (kind_of shape.now) c (edited t (edit_in (length shape.now.tops.now) edits.now at)) rest front.new }
{
    let head = shape.head as usize;
    let row = at + 1;
    let end = row + (2 + 2 * shape.tops.len());
    let n = front[1];
    let place = shape.before(&front[head..], n, edits[row]);
    if edits[at] == 0 {
        front::put_rule(front, n, place, &edits[row..end], shape);
        return;
    }
    front::take_rule(front, n, place, shape);
}

// Does the first edits of a list in the front of a store, as many as count says.
pub fn apply_all(front: &mut [u32], edits: &[u32], count: u32, shape: &Shape)
    requires { (count ≤ 32) × ((shape.now.width + 1) * count ≤ length edits.now) × Fronted (kind_of shape.now) (edits_from (length shape.now.tops.now) (shape.now.width + 1) count edits.now 0) front.old }
    ensures { (c : ℕ) (t : Table) → Fronts (kind_of shape.now) c t (edits_from (length shape.now.tops.now) (shape.now.width + 1) count edits.now 0) front.old → front.new ≡ front_text (kind_of shape.now) c (edited_all t (edits_from (length shape.now.tops.now) (shape.now.width + 1) count edits.now 0)) }
{
    let stride = shape.width as usize + 1;
    for i in 0..count {
        apply(front, edits, stride * (i as usize), shape);
    }
}
