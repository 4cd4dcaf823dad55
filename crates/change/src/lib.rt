// Edits of a store of any kind: insert, delete. Every promise is one equation for the answer and for every lent word, whatever the words hold. No word is written before nothing can be refused any more. The sets and the ends of the rules are written into scratch that is lent.
#![tactic(auto)]

ghost use Rattle.std.specs.Prelude.{◌≡◌, suc, ◌+◌, ◌*◌, length};
ghost use Rattle.refusal.specs.Refusals.{answer_of};
ghost use Rattle.rows.specs.Rows.{Scratch};
ghost use Rattle.table.specs.Rows.{kind_of, rule_in};
ghost use Rattle.layout.specs.Store.{insert_says, insert_words, delete_says, delete_words};

use refusal::Refusal;
use table::Shape;

// Inserts a rule, which is lent as the words of its row.
pub fn insert(
    words: &mut [u32],
    row: &[u32],
    shape: &Shape,
    sets: &mut [u16],
    ends: &mut [u32],
) -> Result<(), Refusal>
    requires { Scratch (suc shape.now.most) (length shape.now.tops.now) sets.old ends.old × (length row.now ≡ 2 + 2 * length shape.now.tops.now) }
    ensures { (answer_of result ≡ insert_says (kind_of shape.now) words.old (rule_in (length shape.now.tops.now) row.now 0)) × (words.new ≡ insert_words (kind_of shape.now) words.old (rule_in (length shape.now.tops.now) row.now 0)) }
{
    let place = answer::decide_insert(words, row, shape, sets, ends)?;
    let c = words[0];
    let n = words[1];
    let from = shape.rows_end() as usize;
    let end = from + (2 + 8 * (c as usize));
    cells::drop(&mut words[from..end], c, shape.tops.len() as u32);
    front::put_rule(&mut words[..from], n, place, row, shape);
    plant::plant(words, c, n + 1, shape, sets, ends);
    Ok(())
}

// Deletes the rule of a number.
pub fn delete(
    words: &mut [u32],
    number: u32,
    shape: &Shape,
    sets: &mut [u16],
    ends: &mut [u32],
) -> Result<(), Refusal>
    requires { Scratch (suc shape.now.most) (length shape.now.tops.now) sets.old ends.old }
    ensures { (answer_of result ≡ delete_says (kind_of shape.now) words.old number) × (words.new ≡ delete_words (kind_of shape.now) words.old number) }
{
    let place = answer::decide_delete(words, number, shape, sets, ends)?;
    let c = words[0];
    let n = words[1];
    let from = shape.rows_end() as usize;
    let end = from + (2 + 8 * (c as usize));
    cells::drop(&mut words[from..end], c, shape.tops.len() as u32);
    front::take_rule(&mut words[..from], n, place, shape);
    plant::plant(words, c, n - 1, shape, sets, ends);
    Ok(())
}
