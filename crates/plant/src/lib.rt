// The tree of a table planted in the cells of a store of any kind; and the start of a store, whose promise is one equation for the answer and for every lent word, whatever the words hold. No word is written before nothing can be refused any more. The sets and the ends of the rules are written into scratch that is lent.
#![tactic(auto)]

ghost use Rattle.std.specs.Prelude.{◌≡◌, suc, ◌≤◌, length};
ghost use Rattle.refusal.specs.Refusals.{answer_of};
ghost use Rattle.model.specs.Rules.{cells as cells_of_tree};
ghost use Rattle.rows.specs.Rows.{tree_at, Scratch};
ghost use Rattle.table.specs.Rows.{kind_of, places as places_of};
ghost use Rattle.layout.specs.Store.{rows_of, start_answer, start_words};
ghost use Rattle.layout.specs.Inner.{Bare, planted};

use refusal::Refusal;
use table::Shape;

// Plants the tree of the n rules of the rows in a store whose cells are all free.
pub fn plant(words: &mut [u32], c: u32, n: u32, shape: &Shape, sets: &mut [u16], ends: &mut [u32])
    requires { Scratch (suc shape.now.most) (length shape.now.tops.now) sets.old ends.old × (n ≤ shape.now.most) × Bare (kind_of shape.now) words.old c × (cells_of_tree (tree_at (rows_of (kind_of shape.now) words.old) 0 (length shape.now.tops.now) (places_of shape.now.width n)) ≤ c) }
    ensures { words.new ≡ planted (kind_of shape.now) c n words.old }
{
    let head = shape.head as usize;
    let from = shape.rows_end() as usize;
    let end = from + (2 + 8 * (c as usize));
    shape.places(n, sets);
    build::build(
        &mut words[head..end],
        from - head,
        c,
        sets,
        (n as usize) + 1,
        shape.tops.len() as u32,
        ends,
    );
}

// Starts a store of c cells that holds the default rule alone, with an action.
pub fn start(
    words: &mut [u32],
    c: u32,
    action: u32,
    shape: &Shape,
    sets: &mut [u16],
    ends: &mut [u32],
) -> Result<(), Refusal>
    requires { Scratch (suc shape.now.most) (length shape.now.tops.now) sets.old ends.old }
    ensures { (answer_of result ≡ start_answer (kind_of shape.now) words.old c) × (words.new ≡ start_words (kind_of shape.now) words.old c action) }
{
    if !audit::room_for(words, c, shape) {
        return Err(Refusal::NoRoom);
    }
    let from = shape.rows_end() as usize;
    let end = from + (2 + 8 * (c as usize));
    cells::clear(&mut words[from..end], c);
    front::fresh(&mut words[..from], c, action, shape);
    plant(words, c, 0, shape, sets, ends);
    Ok(())
}
