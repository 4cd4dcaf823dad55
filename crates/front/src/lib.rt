// What stands before the two links of a store of any kind, its head and its rows: written for a fresh store and for a table that is carried into it, and edited where it stands.
#![tactic(auto)]

ghost use Rattle.std.specs.Prelude.{◌≡◌, true, [], ◌∷◌, ℕ, ◌+◌, ◌*◌, ◌-◌, ◌≤◌, ◌<◌, length, get_or, replicate};
ghost use Rattle.model.specs.Table.{Kind, Table, row_words, within, stands, with_rule, without};
ghost use Rattle.table.specs.Rows.{kind_of, rows_text, rule_in, ahead};
ghost use Rattle.layout.specs.Inner.{front_text};

use table::Shape;

// Writes the head of a store: the number of cells, the number of rules, the kind's mark, and zeros.
fn write_head(head: &mut [u32], c: u32, n: u32, mark: u32)
    requires { 3 ≤ length head.old }
    ensures { head.new ≡ c ∷ n ∷ mark ∷ replicate (length head.old - 3) 0 }
{
    head[0] = c;
    head[1] = n;
    head[2] = mark;
    for i in 3..head.len() {
        head[i] = 0;
    }
}

// Writes the front of a store of c cells that holds the default rule alone, with an action.
pub fn fresh(front: &mut [u32], c: u32, action: u32, shape: &Shape)
    requires { length front.old ≡ shape.now.head + row_words (kind_of shape.now) }
    ensures { front.new ≡ front_text (kind_of shape.now) c (record { action = action; rules = [] }) }
{
    let head = shape.head as usize;
    write_head(&mut front[..head], c, 0, shape.mark);
    moves::fresh(action, shape, &mut front[head..]);
}

// Writes the front of a store of c cells that holds a table of n rules, whose rows are lent as a store of any kind with the same fields and the same width of a row has them. Zeros stand behind them.
pub fn carried(front: &mut [u32], c: u32, n: u32, rows: &[u32], shape: &Shape)
    requires { length front.old ≡ shape.now.head + row_words (kind_of shape.now) }
    ensures { (old : Kind) (t : Table) → old.tops ≡ shape.now.tops.now → old.width ≡ shape.now.width → n ≡ length t.rules → n ≤ old.most → rows.now ≡ rows_text old t → front.new ≡ front_text (kind_of shape.now) c t }
{
    let head = shape.head as usize;
    let end = front.len() - head;
    write_head(&mut front[..head], c, n, shape.mark);
    moves::copy(rows, 0, &mut front[head..], 0, end);
}

// Puts a rule, which is lent as the words of its row, into the front of a store with n rules, behind as many of them as stand before it. Only rows that hold a rule are moved.
pub fn put_rule(front: &mut [u32], n: u32, place: u32, row: &[u32], shape: &Shape)
    requires { (length front.old ≡ shape.now.head + row_words (kind_of shape.now)) × (n < shape.now.most) × (place ≤ n) }
    ensures { (c : ℕ) (t : Table) → within (kind_of shape.now) t ≡ true → n ≡ length t.rules → place ≡ ahead (get_or row.now 0 0) t.rules → length row.now ≡ 2 + 2 * length shape.now.tops.now → front.old ≡ front_text (kind_of shape.now) c t → front.new ≡ front_text (kind_of shape.now) c (with_rule (rule_in (length shape.now.tops.now) row.now 0) t) }
{
    let head = shape.head as usize;
    let width = shape.width;
    let at = shape.row_start(place + 1);
    let end = head + (shape.row_start(n + 2) as usize);
    moves::put(&mut front[head..end], width, at, row);
    front[1] = n + 1;
}

// Takes a rule out of the front of a store with n rules: that behind as many of them as stand before it.
pub fn take_rule(front: &mut [u32], n: u32, place: u32, shape: &Shape)
    requires { (length front.old ≡ shape.now.head + row_words (kind_of shape.now)) × (n ≤ shape.now.most) × (place < n) }
    ensures { (c x : ℕ) (t : Table) → within (kind_of shape.now) t ≡ true → n ≡ length t.rules → place ≡ ahead x t.rules → stands x t.rules ≡ true → front.old ≡ front_text (kind_of shape.now) c t → front.new ≡ front_text (kind_of shape.now) c (without x t) }
{
    let head = shape.head as usize;
    let width = shape.width;
    let at = shape.row_start(place + 1);
    let end = head + (shape.row_start(n + 1) as usize);
    moves::take_out(&mut front[head..end], width, at);
    front[1] = n - 1;
}
