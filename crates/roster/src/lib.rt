// What one edit decides in a table that a set names, before a word is written. The set says where the table's rows begin, in the rows of a store or in words that are lent behind them: its rules by rising number, and then the default. Where the edit is accepted the set names the edited table. The rows are only read.
#![tactic(auto)]

ghost use Rattle.std.specs.Prelude.{◌≡◌, IfOk, true, ◌++◌, ◌+◌, ◌≤◌, ◌<◌, leb, length, take};
ghost use Rattle.model.specs.Rules.{cells};
ghost use Rattle.model.specs.Table.{Kind, Table, stands, with_rule, without, insert_answer, delete_answer};
ghost use Rattle.refusal.specs.Refusals.{answer_of};
ghost use Rattle.rows.specs.Rows.{tree_at, Scratch};
ghost use Rattle.table.specs.Rows.{kind_of, rule_in, ahead};
ghost use Rattle.roster.specs.Inner.{Named, Lent};

use refusal::Refusal;
use rows::Rows;
use table::Shape;

// How many of the n rules that a set names stand before the place of the number x. It is looked for from the highest number down.
fn before(rows: &Rows, set: &[u16], n: usize, x: u32) -> usize
    requires { n ≤ length set.now }
    ensures { (result ≤ n) × ((k : Kind) (t : Table) → Named k rows.now n set.now t → result ≡ ahead x t.rules) }
{
    for p in (0..n).rev() {
        if rows.word(usize::from(set[p])) < x {
            return p + 1;
        }
    }
    0
}

// Whether the rule behind the p rules that are ahead of a number has that number: so whether the number stands.
fn stands_behind(rows: &Rows, set: &[u16], n: usize, p: usize, x: u32) -> bool
    requires { n ≤ length set.now }
    ensures { (result ≡ true → p < n) × ((k : Kind) (t : Table) → Named k rows.now n set.now t → p ≡ ahead x t.rules → result ≡ stands x t.rules) }
{
    if n <= p {
        return false;
    }
    rows.word(usize::from(set[p])) == x
}

// Writes the first n numbers of a set into other words. (The library's `copy_from_slice` would have the C library move them, by a name that an archive does not need otherwise.)
fn copy_set(set: &[u16], n: usize, out: &mut [u16])
    requires { (n ≤ length set.now) × (n ≤ length out.old) }
    ensures { take n out.new ≡ take n set.now }
{
    for i in 0..n {
        out[i] = set[i];
    }
}

// Whether the tree of the n rules of a set takes at most c cells.
fn fits(
    rows: &Rows,
    set: &[u16],
    n: usize,
    c: u32,
    shape: &Shape,
    sets: &mut [u16],
    ends: &mut [u32],
) -> bool
    requires { (n ≤ length set.now) × (c ≤ 65536) × Scratch n (length shape.now.tops.now) sets.old ends.old }
    ensures { result ≡ leb (cells (tree_at rows.now 0 (length shape.now.tops.now) (take n set.now))) c }
{
    copy_set(set, n, sets);
    let fields = shape.tops.len() as u32;
    count::count_chain(rows, sets, n, 0, fields, c, ends) <= c
}

// What an insert answers in the table that a set of n rules names, and how many rules it names then, where the rule's row begins at a word of those behind the rows; where the insert is accepted the set names the new table.
pub fn insert_into(
    rows: &[u32],
    more: &[u32],
    row: usize,
    set: &mut [u16],
    n: usize,
    c: u32,
    shape: &Shape,
    sets: &mut [u16],
    ends: &mut [u32],
) -> Result<usize, Refusal>
    requires { Lent (kind_of shape.now) rows.now row n set.old sets.old ends.old × (c ≤ 65536) }
    ensures { IfOk result (λ m. (m ≡ n + 1) × (m ≤ shape.now.most)) × ((t : Table) → Named (kind_of shape.now) (rows.now ++ more.now) n set.old t → (answer_of result ≡ insert_answer (kind_of shape.now) c t (rule_in (length shape.now.tops.now) more.now row)) × IfOk result (λ m. Named (kind_of shape.now) (rows.now ++ more.now) m set.new (with_rule (rule_in (length shape.now.tops.now) more.now row) t))) }
{
    let number = table::word(more, row);
    if 65534 < number {
        return Err(Refusal::NumberTooHigh);
    }
    if !shape.right(more, row as u32) {
        return Err(Refusal::WrongRange);
    }
    let both = Rows::new(rows, more);
    let place = before(&both, set, n, number);
    if stands_behind(&both, set, n, place, number) {
        return Err(Refusal::NumberTaken);
    }
    if (shape.most as usize) <= n {
        return Err(Refusal::TableFull);
    }
    rows::put_in(set, place, n + 1, (rows.len() + row) as u16);
    if !fits(&both, set, n + 2, c, shape, sets, ends) {
        return Err(Refusal::TooFewCells);
    }
    Ok(n + 1)
}

// What a delete of a number answers in the table that a set of n rules names, and how many rules it names then; where the delete is accepted the set names the new table.
pub fn delete_from(
    rows: &[u32],
    more: &[u32],
    set: &mut [u16],
    n: usize,
    number: u32,
) -> Result<usize, Refusal>
    requires { n < length set.old }
    ensures { IfOk result (λ m. m + 1 ≡ n) × ((k : Kind) (t : Table) → Named k (rows.now ++ more.now) n set.old t → (answer_of result ≡ delete_answer t number) × IfOk result (λ m. Named k (rows.now ++ more.now) m set.new (without number t))) }
{
    if 65534 < number {
        return Err(Refusal::NumberTooHigh);
    }
    let both = Rows::new(rows, more);
    let place = before(&both, set, n, number);
    if !stands_behind(&both, set, n, place, number) {
        return Err(Refusal::NotThere);
    }
    set.copy_within(place + 1..n + 1, place);
    Ok(n - 1)
}
