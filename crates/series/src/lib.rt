// What a list of edits decides, before a word is written: each edit of the table that those before it leave. The rows of the store are only read. The table on the way is a set (`roster`) that says where its rows begin, in the rows of the store or among the edits, which are lent behind them.
#![tactic(auto)]

ghost use Rattle.std.specs.Prelude.{◌≡◌, IfOk, ◌++◌, suc, ◌+◌, ◌≤◌, length};
ghost use Rattle.model.specs.Table.{Table};
ghost use Rattle.refusal.specs.Refusals.{answer_of};
ghost use Rattle.rows.specs.Rows.{Scratch};
ghost use Rattle.table.specs.Rows.{kind_of, table_in};
ghost use Rattle.layout.specs.Inner.{TableHeld};
ghost use Rattle.roster.specs.Inner.{Named, Lent};
ghost use Rattle.series.specs.Edits.{edit_answer, edited, listed, edit_in, edits_from, first_refusal};

use refusal::Refusal;
use table::Shape;

// What a list of edits answers: 0 and 0, or the number of the first refusal and the place, counted from 1, of the edit that is refused.
#[repr(C)]
#[derive(Clone, Copy)]
pub struct Listed {
    pub answer: u32,
    pub place: u32,
}

impl Listed {
    // The answer of a list by its number, with a place beside it.
    pub fn of(done: Result<(), Refusal>, place: u32) -> Listed
        ensures { result ≡ listed (answer_of done) place }
    {
        Listed {
            answer: refusal::answer(done),
            place,
        }
    }
}

// What the edit that begins at a word of the list answers in the table that a set of n rules names, and how many rules it names then; where the edit is accepted the set names the new table.
fn edit(
    rows: &[u32],
    edits: &[u32],
    at: usize,
    set: &mut [u16],
    n: usize,
    c: u32,
    shape: &Shape,
    sets: &mut [u16],
    ends: &mut [u32],
) -> Result<usize, Refusal>
    requires { Lent (kind_of shape.now) rows.now (at + 1) n set.old sets.old ends.old × (c ≤ 65536) }
    ensures { IfOk result (λ m. m ≤ shape.now.most) × ((t : Table) → Named (kind_of shape.now) (rows.now ++ edits.now) n set.old t → (answer_of result ≡ edit_answer (kind_of shape.now) c t (edit_in (length shape.now.tops.now) edits.now at)) × IfOk result (λ m. Named (kind_of shape.now) (rows.now ++ edits.now) m set.new (edited t (edit_in (length shape.now.tops.now) edits.now at)))) }
{
    if table::word(edits, at) == 0 {
        return roster::insert_into(rows, edits, at + 1, set, n, c, shape, sets, ends);
    }
    roster::delete_from(rows, edits, set, n, table::word(edits, at + 1))
}

// What a list of edits answers, a row and a word more for each, in the table of n rules that the rows hold, where the store has c cells. The set is scratch, for as many places as the kind takes rules and one more.
pub fn first_refusal(
    rows: &[u32],
    n: u32,
    c: u32,
    edits: &[u32],
    count: u32,
    shape: &Shape,
    set: &mut [u16],
    sets: &mut [u16],
    ends: &mut [u32],
) -> Listed
    requires { TableHeld (kind_of shape.now) n rows.now × (c ≤ 65536) × (count ≤ 32) × (suc shape.now.most ≤ length set.old) × Scratch (suc shape.now.most) (length shape.now.tops.now) sets.old ends.old }
    ensures { result ≡ first_refusal (kind_of shape.now) c 0 (table_in (kind_of shape.now) n rows.now) (edits_from (length shape.now.tops.now) (shape.now.width + 1) count edits.now 0) }
{
    let stride = shape.width as usize + 1;
    let mut m = n as usize;
    shape.places(n, set);
    for i in 0..count {
        let at = stride * (i as usize);
        match edit(rows, edits, at, set, m, c, shape, sets, ends) {
            Ok(left) => m = left,
            Err(refusal) => return Listed::of(Err(refusal), i + 1),
        }
    }
    Listed::of(Ok(()), 0)
}
