// What is read of a store of any kind that passes the check: where the row of a number begins, or of a place, and the cells in use. Words are only read.
#![tactic(auto)]

ghost use Rattle.std.specs.Prelude.{◌≡◌, IfOk, suc, length};
ghost use Rattle.std.specs.Result.{result_unwrap_or};
ghost use Rattle.model.specs.Table.{read_rule, place_rule};
ghost use Rattle.refusal.specs.Refusals.{answer_of};
ghost use Rattle.rows.specs.Rows.{Scratch};
ghost use Rattle.table.specs.Rows.{kind_of, rule_in};
ghost use Rattle.layout.specs.Store.{rows_of, table_of, read_says, place_says, cells_says, cells_gives};

use refusal::Refusal;
use table::Shape;

// At which word of the rows the row of a number begins; the default's under 65,535.
pub fn find(
    words: &[u32],
    number: u32,
    shape: &Shape,
    sets: &mut [u16],
    ends: &mut [u32],
) -> Result<u32, Refusal>
    requires { Scratch (suc shape.now.most) (length shape.now.tops.now) sets.old ends.old }
    ensures { (answer_of result ≡ read_says (kind_of shape.now) words.now number) × IfOk result (λ row. rule_in (length shape.now.tops.now) (rows_of (kind_of shape.now) words.now) row ≡ read_rule (kind_of shape.now) (table_of (kind_of shape.now) words.now) number) }
{
    if !audit::check(words, shape, sets, ends) {
        return Err(Refusal::Damaged);
    }
    if number == 65535 {
        return Ok(0);
    }
    if 65534 < number {
        return Err(Refusal::NumberTooHigh);
    }
    let rows = audit::rows(words, shape);
    let n = words[1];
    let p = shape.before(rows, n, number);
    if !table::stands_behind(rows, n, p, number, shape) {
        return Err(Refusal::NotThere);
    }
    Ok(shape.row_start(p + 1))
}

// At which word of the rows the row at a place begins. Places are counted from 1, by rising number.
pub fn find_at(
    words: &[u32],
    place: u32,
    shape: &Shape,
    sets: &mut [u16],
    ends: &mut [u32],
) -> Result<u32, Refusal>
    requires { Scratch (suc shape.now.most) (length shape.now.tops.now) sets.old ends.old }
    ensures { (answer_of result ≡ place_says (kind_of shape.now) words.now place) × IfOk result (λ row. rule_in (length shape.now.tops.now) (rows_of (kind_of shape.now) words.now) row ≡ place_rule (kind_of shape.now) (table_of (kind_of shape.now) words.now) place) }
{
    if !audit::check(words, shape, sets, ends) {
        return Err(Refusal::Damaged);
    }
    if place == 0 {
        return Err(Refusal::NotThere);
    }
    if words[1] < place {
        return Err(Refusal::NotThere);
    }
    Ok(shape.row_start(place))
}

// What counting the cells gives C: the answer, and the cells in use, or 0 with a refusal.
#[repr(C)]
#[derive(Clone, Copy)]
pub struct Count {
    pub answer: u32,
    pub cells: u32,
}

impl From<Result<u32, Refusal>> for Count {
    fn from(counted: Result<u32, Refusal>) -> Count
        ensures { (result.answer ≡ answer_of counted) × (result.cells ≡ result_unwrap_or counted 0) }
    {
        Count {
            answer: refusal::answer(counted),
            cells: counted.unwrap_or(0),
        }
    }
}

// Counts the cells in use. In a store that passes they are those before the first free cell, which the first of its two links names.
pub fn cells(
    words: &[u32],
    shape: &Shape,
    sets: &mut [u16],
    ends: &mut [u32],
) -> Result<u32, Refusal>
    requires { Scratch (suc shape.now.most) (length shape.now.tops.now) sets.old ends.old }
    ensures { (answer_of result ≡ cells_says (kind_of shape.now) words.now) × IfOk result (λ n. n ≡ cells_gives (kind_of shape.now) words.now) }
{
    if !audit::check(words, shape, sets, ends) {
        return Err(Refusal::Damaged);
    }
    Ok(words[shape.rows_end() as usize])
}
