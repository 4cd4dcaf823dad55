// The table of a store in its rows: as many and as wide as its kind says, the default's first, then the rules by rising number, then rows of zeros. Read, held to the limits, and searched.
#![tactic(auto)]

ghost use Rattle.std.specs.Prelude.{◌≡◌, true, ◌&&◌, ℕ, suc, ◌+◌, ◌*◌, ◌%◌, ◌≤◌, ◌<◌, leb, eqb, length, get_or, take};
ghost use Rattle.model.specs.Lists.{same};
ghost use Rattle.model.specs.Rules.{ranges_right};
ghost use Rattle.model.specs.Table.{Kind, default_rule, stands, fields_from, rising_from, ports_right, rule_right, all_right};
ghost use Rattle.rows.specs.Rows.{low_in, high_in};
ghost use Rattle.table.specs.Rows.{kind_of, kind_with, row_word, rows_text, rule_in, table_in, places as places_of, ahead, Rowed, Tells, First, Zeros, Blank};

mod shape;

use rows::Rows;
pub use shape::Shape;

// The word at the place of the rows; behind the last one 0.
pub fn word(rows: &[u32], i: usize) -> u32
    ensures { result ≡ get_or rows.now i 0 }
{
    rows.get(i).copied().unwrap_or(0)
}

impl Shape<'_> {
    // What word j of the default's row has to be, where its action is given: number 65,535, and the whole range of each field.
    pub fn default_word(&self, action: u32, j: usize) -> u32
        ensures { result ≡ row_word (default_rule (kind_of self.now) action) j }
    {
        if j == 0 {
            return 65535;
        }
        if j == 1 {
            return action;
        }
        if j % 2 == 0 {
            return 0;
        }
        word(self.tops, j / 2 - 1)
    }

    // Where a row begins.
    pub fn row_start(&self, place: u32) -> u32
        requires { place ≤ 513 }
        ensures { (result ≡ self.now.width * place) × (result ≤ 15903) }
    {
        row_start(self.width, place)
    }

    // How many words stand before the two links: the head and the rows.
    pub fn rows_end(&self) -> u32
        ensures { (result ≡ self.now.head + self.now.width * suc self.now.most) × (result ≤ 16415) }
    {
        self.head + self.row_start(self.most + 1)
    }

    // Whether one of n rows behind the default's, or the default's, begins at a word.
    pub fn begins(&self, n: u32, at: u32) -> bool
        ensures { result ≡ (leb at (self.now.width * self.now.most) && (leb at (self.now.width * n) && eqb (at % self.now.width) 0)) }
    {
        begins(self.width, self.most, n, at)
    }

    // Whether the rule at a place of the rows is one that a table may hold.
    pub fn right(&self, rows: &[u32], place: u32) -> bool
        ensures { result ≡ rule_right (kind_of self.now) (rule_in (length self.now.tops.now) rows.now place) }
    {
        right(rows, place, self.tops, self.ports)
    }

    // How many of the n rules of the rows stand before the place of the number x.
    pub fn before(&self, rows: &[u32], n: u32, x: u32) -> u32
        requires { (n ≤ 512) × (rising_from 0 (table_in (kind_of self.now) n rows.now).rules ≡ true) }
        ensures { (result ≡ ahead x (table_in (kind_of self.now) n rows.now).rules) × (result ≤ n) }
    {
        before(rows, n, self.width, x)
    }

    // Writes where the rows of a table of n rules begin, by rising number, the default's last.
    pub fn places(&self, n: u32, out: &mut [u16])
        requires { (n ≤ 512) × (n < length out.old) }
        ensures { take (n + 1) out.new ≡ places_of self.now.width n }
    {
        places(self.width, n, out)
    }
}

// Where a row begins, by the words of a row.
pub fn row_start(width: u32, place: u32) -> u32
    requires { (width ≤ 31) × (place ≤ 513) }
    ensures { (result ≡ width * place) × (result ≤ 15903) }
{
    width * place
}

// Whether one of n rows behind the default's, or the default's, begins at a word, by the words of a row and the most rules that there may be.
pub fn begins(width: u32, most: u32, n: u32, at: u32) -> bool
    requires { (2 ≤ width) × (width ≤ 31) × (most ≤ 512) }
    ensures { result ≡ (leb at (width * most) && (leb at (width * n) && eqb (at % width) 0)) }
{
    if row_start(width, most) < at {
        return false;
    }
    if (width as usize) * (n as usize) < (at as usize) {
        return false;
    }
    at % width == 0
}

// Whether the first row is the default's.
fn first_is(rows: &[u32], shape: &Shape) -> bool
    requires { shape.now.width ≤ length rows.now }
    ensures { Tells result (First (kind_of shape.now) rows.now) }
{
    let action = rows[1];
    for j in 0..shape.width as usize {
        if rows[j] != shape.default_word(action, j) {
            return false;
        }
    }
    true
}

// Whether the words from a place up to another are 0.
pub fn zeros(rows: &[u32], from: usize, to: usize) -> bool
    requires { (from ≤ to) × (to ≤ length rows.now) }
    ensures { Tells result (Zeros rows.now from to) }
{
    for i in from..to {
        if rows[i] != 0 {
            return false;
        }
    }
    true
}

// Whether the rows from one place up to another have zeros from a word on.
fn blank(rows: &[u32], shape: &Shape, used: u32, from: u32, to: u32) -> bool
    requires { (used ≤ shape.now.width) × (from ≤ to) × (to ≤ 513) × (shape.now.width * to ≤ length rows.now) }
    ensures { Tells result (Blank shape.now.width rows.now used from to) }
{
    for p in from..to {
        let at = shape.row_start(p);
        if !zeros(rows, (at + used) as usize, (at + shape.width) as usize) {
            return false;
        }
    }
    true
}

// Whether the rows are those of the table of n rules that they hold: the default's row is right, and every word that is not a rule's is 0.
pub fn rows_are(rows: &[u32], n: u32, shape: &Shape) -> bool
    requires { Rowed (kind_of shape.now) n rows.now }
    ensures { result ≡ same rows.now (rows_text (kind_of shape.now) (table_in (kind_of shape.now) n rows.now)) }
{
    if !first_is(rows, shape) {
        return false;
    }
    let used = 2 + 2 * (shape.tops.len() as u32);
    if !blank(rows, shape, used, 1, n + 1) {
        return false;
    }
    blank(rows, shape, 0, n + 1, shape.most + 1)
}

// Whether the numbers of the n rules rise, from 0 to 65,534.
pub fn rising(rows: &[u32], n: u32, shape: &Shape) -> bool
    requires { n ≤ 512 }
    ensures { result ≡ rising_from 0 (table_in (kind_of shape.now) n rows.now).rules }
{
    let table = Rows::of(rows);
    let mut least: u32 = 0;
    for p in 0..n {
        let x = table.number(shape.row_start(p + 1));
        if x < least {
            return false;
        }
        if 65534 < x {
            return false;
        }
        least = x + 1;
    }
    true
}

// Whether no low end of the rule at a place is above its high end, and no high end above its field's top.
fn ranges_right(rows: &[u32], place: u32, tops: &[u32]) -> bool
    requires { length tops.now ≤ 32 }
    ensures { result ≡ ranges_right (fields_from 0 tops.now) (rule_in (length tops.now) rows.now place) }
{
    let table = Rows::of(rows);
    let mut f: u32 = 0;
    for top in tops {
        let end = table.high(place, f);
        if end < table.low(place, f) {
            return false;
        }
        if *top < end {
            return false;
        }
        f += 1;
    }
    true
}

// Whether the range of the rule at a place in a field is from one number to another.
fn asks(rows: &[u32], place: u32, field: u32, from: u32, to: u32) -> bool
    ensures { result ≡ (eqb (low_in rows.now field place) from && eqb (high_in rows.now field place) to) }
{
    let table = Rows::of(rows);
    table.low(place, field) == from && table.high(place, field) == to
}

// Whether the rule at a place asks for ports only of packets that have them: both its port ranges are full, or its range of the mark behind them is 0 to 0.
fn ports_right(rows: &[u32], place: u32, tops: &[u32], ports: u32) -> bool
    requires { (length tops.now ≤ 32) × (ports + 3 ≡ length tops.now) }
    ensures { (most width head mark : ℕ) → result ≡ ports_right (kind_with tops.now ports most width head mark) (rule_in (length tops.now) rows.now place) }
{
    if asks(rows, place, ports + 2, 0, 0) {
        return true;
    }
    if !asks(rows, place, ports, 0, word(tops, ports as usize)) {
        return false;
    }
    let top = word(tops, (ports as usize) + 1);
    asks(rows, place, ports + 1, 0, top)
}

// Whether the rule at a place is one that a table may hold, by the tops of its fields and where the ports stand among them.
pub fn right(rows: &[u32], place: u32, tops: &[u32], ports: u32) -> bool
    requires { (length tops.now ≤ 32) × (ports + 3 ≡ length tops.now) }
    ensures { (most width head mark : ℕ) → result ≡ rule_right (kind_with tops.now ports most width head mark) (rule_in (length tops.now) rows.now place) }
{
    if !ranges_right(rows, place, tops) {
        return false;
    }
    ports_right(rows, place, tops, ports)
}

// Whether each of the n rules is one that a table may hold.
pub fn all_right(rows: &[u32], n: u32, shape: &Shape) -> bool
    requires { n ≤ 512 }
    ensures { result ≡ all_right (kind_of shape.now) (table_in (kind_of shape.now) n rows.now).rules }
{
    for p in 0..n {
        if !shape.right(rows, shape.row_start(p + 1)) {
            return false;
        }
    }
    true
}

// How many of the n rules stand before the place of the number x, by the words of a row. It is looked for from the highest number down, so that a number above all others is placed at the first look.
pub fn before(rows: &[u32], n: u32, width: u32, x: u32) -> u32
    requires { (n ≤ 512) × (width ≤ 31) }
    ensures { ((k : Kind) → k.width ≡ width → rising_from 0 (table_in k n rows.now).rules ≡ true → result ≡ ahead x (table_in k n rows.now).rules) × (result ≤ n) }
{
    let table = Rows::of(rows);
    for p in (0..n).rev() {
        if table.number(row_start(width, p + 1)) < x {
            return p + 1;
        }
    }
    0
}

// Whether the rule behind the p rules that are ahead of a number has that number: so whether the number stands.
pub fn stands_behind(rows: &[u32], n: u32, p: u32, x: u32, shape: &Shape) -> bool
    requires { (n ≤ 512) × (rising_from 0 (table_in (kind_of shape.now) n rows.now).rules ≡ true) × (p ≡ ahead x (table_in (kind_of shape.now) n rows.now).rules) }
    ensures { result ≡ stands x (table_in (kind_of shape.now) n rows.now).rules }
{
    if n <= p {
        return false;
    }
    Rows::of(rows).number(shape.row_start(p + 1)) == x
}

// Writes where the rows of a table of n rules begin, by rising number, the default's last.
pub fn places(width: u32, n: u32, out: &mut [u16])
    requires { (width ≤ 31) × (n ≤ 512) × (n < length out.old) }
    ensures { take (n + 1) out.new ≡ places_of width n }
{
    for i in 0..n {
        out[i as usize] = row_start(width, i + 1) as u16;
    }
    out[n as usize] = 0;
}
