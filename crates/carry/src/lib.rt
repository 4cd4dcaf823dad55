// Carries the table of a store into lent words, as a store of another kind or of the same, with a number of cells of its own. The two kinds have the same fields and the same width of a row, and the new one takes as many rules or more. The promise is one equation for the answer and for every lent word, whatever the words hold. The old store is only read, and no word is written before nothing can be refused any more. The sets and the ends of the rules are written into scratch that is lent.
#![tactic(auto)]

ghost use Rattle.std.specs.Prelude.{◌≡◌, suc, ◌≤◌, length};
ghost use Rattle.refusal.specs.Refusals.{answer_of};
ghost use Rattle.rows.specs.Rows.{Scratch};
ghost use Rattle.table.specs.Rows.{kind_of};
ghost use Rattle.layout.specs.Store.{carry_says, carry_words};

use refusal::Refusal;
use table::Shape;

// What a carry answers. In a store that passes the table's tree has as many locations as cells stand before the first free one, which the first of its two links names.
fn decide_carry(
    from: &[u32],
    words: &[u32],
    c: u32,
    old: &Shape,
    shape: &Shape,
    sets: &mut [u16],
    ends: &mut [u32],
) -> Result<(), Refusal>
    requires { (old.now.tops.now ≡ shape.now.tops.now) × Scratch (suc old.now.most) (length old.now.tops.now) sets.old ends.old }
    ensures { answer_of result ≡ carry_says (kind_of old.now) (kind_of shape.now) from.now words.now c }
{
    if !audit::check(from, old, sets, ends) {
        return Err(Refusal::Damaged);
    }
    if !audit::room_for(words, c, shape) {
        return Err(Refusal::NoRoom);
    }
    let links = old.rows_end() as usize;
    if c < from[links] {
        return Err(Refusal::TooFewCells);
    }
    Ok(())
}

// Carries the table of a store of the old shape into words that become a store of c cells of the other shape.
pub fn carry(
    from: &[u32],
    words: &mut [u32],
    c: u32,
    old: &Shape,
    shape: &Shape,
    sets: &mut [u16],
    ends: &mut [u32],
) -> Result<(), Refusal>
    requires { (old.now.tops.now ≡ shape.now.tops.now) × (old.now.width ≡ shape.now.width) × (old.now.most ≤ shape.now.most) × Scratch (suc shape.now.most) (length shape.now.tops.now) sets.old ends.old }
    ensures { (answer_of result ≡ carry_says (kind_of old.now) (kind_of shape.now) from.now words.old c) × (words.new ≡ carry_words (kind_of old.now) (kind_of shape.now) from.now words.old c) }
{
    decide_carry(from, words, c, old, shape, sets, ends)?;
    let n = from[1];
    let rows = old.head as usize;
    let links = old.rows_end() as usize;
    let start = shape.rows_end() as usize;
    let end = start + (2 + 8 * (c as usize));
    cells::clear(&mut words[start..end], c);
    front::carried(&mut words[..start], c, n, &from[rows..links], shape);
    plant::plant(words, c, n, shape, sets, ends);
    Ok(())
}
