// What an edit of a table decides, before a word is written: the answer of an insert and of a delete, and the place where the rule goes or stands. The rows are only read, in a store of any kind.
#![tactic(auto)]

ghost use Rattle.std.specs.Prelude.{◌≡◌, IfOk, ◌∷◌, ◌++◌, suc, ◌+◌, ◌*◌, ◌≤◌, ◌<◌, leb, length, get_or, take, drop};
ghost use Rattle.model.specs.Rules.{cells};
ghost use Rattle.model.specs.Table.{insert_answer, delete_answer};
ghost use Rattle.refusal.specs.Refusals.{answer_of};
ghost use Rattle.rows.specs.Rows.{tree_at, Scratch};
ghost use Rattle.table.specs.Rows.{kind_of, rule_in, table_in, ahead, places as places_of};
ghost use Rattle.layout.specs.Inner.{TableHeld};

use refusal::Refusal;
use rows::Rows;
use table::Shape;

// Whether the tree of n rules and one more, which is lent as a row behind their rows, takes at most c cells; p of the rules stand before it.
fn fits(
    rows: &[u32],
    row: &[u32],
    n: u32,
    p: u32,
    c: u32,
    shape: &Shape,
    sets: &mut [u16],
    ends: &mut [u32],
) -> bool
    requires { (n < 512) × (p ≤ n) × (c ≤ 65536) × (length rows.now ≤ 65535) × Scratch (suc (suc n)) (length shape.now.tops.now) sets.old ends.old }
    ensures { result ≡ leb (cells (tree_at (rows.now ++ row.now) 0 (length shape.now.tops.now) (take p (places_of shape.now.width n) ++ (length rows.now ∷ drop p (places_of shape.now.width n))))) c }
{
    shape.places(n, sets);
    rows::put_in(sets, p as usize, (n as usize) + 1, rows.len() as u16);
    let fields = shape.tops.len() as u32;
    let both = Rows::new(rows, row);
    count::count_chain(&both, sets, (n as usize) + 2, 0, fields, c, ends) <= c
}

// What an insert of a rule answers, and how many rules stand before its place: the rule is lent as the words of its row, where the rows hold a table of n rules and the store has c cells.
pub fn insert_into(
    rows: &[u32],
    n: u32,
    c: u32,
    row: &[u32],
    shape: &Shape,
    sets: &mut [u16],
    ends: &mut [u32],
) -> Result<u32, Refusal>
    requires { TableHeld (kind_of shape.now) n rows.now × (c ≤ 65536) × (length row.now ≡ 2 + 2 * length shape.now.tops.now) × Scratch (suc shape.now.most) (length shape.now.tops.now) sets.old ends.old }
    ensures { (answer_of result ≡ insert_answer (kind_of shape.now) c (table_in (kind_of shape.now) n rows.now) (rule_in (length shape.now.tops.now) row.now 0)) × IfOk result (λ p. p ≡ ahead (get_or row.now 0 0) (table_in (kind_of shape.now) n rows.now).rules) }
{
    let number = row[0];
    if 65534 < number {
        return Err(Refusal::NumberTooHigh);
    }
    if !shape.right(row, 0) {
        return Err(Refusal::WrongRange);
    }
    let place = shape.before(rows, n, number);
    if table::stands_behind(rows, n, place, number, shape) {
        return Err(Refusal::NumberTaken);
    }
    if shape.most <= n {
        return Err(Refusal::TableFull);
    }
    if !fits(rows, row, n, place, c, shape, sets, ends) {
        return Err(Refusal::TooFewCells);
    }
    Ok(place)
}

// What a delete of a number answers, and how many rules stand before its rule, where the rows hold a table of n rules.
pub fn delete_from(rows: &[u32], n: u32, number: u32, shape: &Shape) -> Result<u32, Refusal>
    requires { TableHeld (kind_of shape.now) n rows.now }
    ensures { (answer_of result ≡ delete_answer (table_in (kind_of shape.now) n rows.now) number) × IfOk result (λ p. p ≡ ahead number (table_in (kind_of shape.now) n rows.now).rules) }
{
    if 65534 < number {
        return Err(Refusal::NumberTooHigh);
    }
    let place = shape.before(rows, n, number);
    if !table::stands_behind(rows, n, place, number, shape) {
        return Err(Refusal::NotThere);
    }
    Ok(place)
}
