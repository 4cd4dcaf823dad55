// What an insert or a delete answers, in a store of any kind, and where the rule goes or stands: first whether the store passes the check, then what is decided of its table. The words are only read. The sets and the ends of the rules are written into scratch that is lent.
#![tactic(auto)]

ghost use Rattle.std.specs.Prelude.{◌≡◌, IfOk, suc, ◌+◌, ◌*◌, length, get_or};
ghost use Rattle.refusal.specs.Refusals.{answer_of};
ghost use Rattle.rows.specs.Rows.{Scratch};
ghost use Rattle.table.specs.Rows.{kind_of, rule_in, ahead};
ghost use Rattle.layout.specs.Store.{table_of, insert_says, delete_says};

use refusal::Refusal;
use table::Shape;

// What an insert answers, and where the rule goes.
pub fn decide_insert(
    words: &[u32],
    row: &[u32],
    shape: &Shape,
    sets: &mut [u16],
    ends: &mut [u32],
) -> Result<u32, Refusal>
    requires { Scratch (suc shape.now.most) (length shape.now.tops.now) sets.old ends.old × (length row.now ≡ 2 + 2 * length shape.now.tops.now) }
    ensures { (answer_of result ≡ insert_says (kind_of shape.now) words.now (rule_in (length shape.now.tops.now) row.now 0)) × IfOk result (λ p. p ≡ ahead (get_or row.now 0 0) (table_of (kind_of shape.now) words.now).rules) }
{
    if !audit::check(words, shape, sets, ends) {
        return Err(Refusal::Damaged);
    }
    let head = shape.head as usize;
    let from = shape.rows_end() as usize;
    decide::insert_into(
        &words[head..from],
        words[1],
        words[0],
        row,
        shape,
        sets,
        ends,
    )
}

// What a delete answers, and where the rule stands.
pub fn decide_delete(
    words: &[u32],
    number: u32,
    shape: &Shape,
    sets: &mut [u16],
    ends: &mut [u32],
) -> Result<u32, Refusal>
    requires { Scratch (suc shape.now.most) (length shape.now.tops.now) sets.old ends.old }
    ensures { (answer_of result ≡ delete_says (kind_of shape.now) words.now number) × IfOk result (λ p. p ≡ ahead number (table_of (kind_of shape.now) words.now).rules) }
{
    if !audit::check(words, shape, sets, ends) {
        return Err(Refusal::Damaged);
    }
    let head = shape.head as usize;
    let from = shape.rows_end() as usize;
    decide::delete_from(&words[head..from], words[1], number, shape)
}
