// The rows of a table, written: those of a fresh one, a row put in or taken out where they stand, and words copied from one slice to another.
#![tactic(auto)]

ghost use Rattle.std.specs.Prelude.{◌≡◌, [], ◌+◌, ◌-◌, ◌≤◌, ◌<◌, length};
ghost use Rattle.model.specs.Lists.{up_to};
ghost use Rattle.model.specs.Table.{row_words};
ghost use Rattle.table.specs.Rows.{kind_of, Raised, rows_text, put_word, take_word, fresh_word, Copied};

use table::Shape;

// How far words can be copied: from a place on to an end, where others are read from a start on and there are so many.
fn reach(at: usize, end: usize, start: usize, there: usize) -> usize
    requires { at ≤ end }
    ensures { (at ≤ result) × (result ≤ end) × (start + (result - at) ≤ start + (there - start)) × (result < end → there ≤ start + (result - at)) }
{
    if there <= start {
        return at;
    }
    if there - start < end - at {
        return at + (there - start);
    }
    end
}

// Writes into out, from a place on to an end, the words of a slice from a start on; zeros where it has no more.
pub fn copy(from: &[u32], start: usize, out: &mut [u32], at: usize, end: usize)
    requires { (at ≤ end) × (end ≤ length out.old) × (start ≤ 65536) }
    ensures { Copied from.now start out.old out.new at end }
{
    let stop = reach(at, end, start, from.len());
    for i in at..stop {
        out[i] = from[start + (i - at)];
    }
    out[stop..end].fill(0);
}

// Moves the words from a place on up by as many as a row has. The last ones are lost, and the first stay where they were as well.
fn move_up(rows: &mut [u32], at: usize, width: usize)
    requires { at + width ≤ length rows.old }
    ensures { Raised rows.old rows.new at width }
{
    for i in (at + width..rows.len()).rev() {
        rows[i] = rows[i - width];
    }
}

// Puts a row into the rows, where it is to begin at a word: those from there on move up, and the last one is lost.
pub fn put(rows: &mut [u32], width: u32, at: u32, row: &[u32])
    requires { at + width ≤ length rows.old }
    ensures { rows.new ≡ up_to (length rows.old) (put_word width rows.old at row.now) }
{
    let p = at as usize;
    let w = width as usize;
    move_up(rows, p, w);
    copy(row, 0, rows, p, p + w);
}

// Takes the row that begins at a word out of the rows: those behind it move down, and a row of zeros comes last.
pub fn take_out(rows: &mut [u32], width: u32, at: u32)
    requires { at ≤ length rows.old }
    ensures { rows.new ≡ up_to (length rows.old) (take_word width rows.old at) }
{
    let w = width as usize;
    for i in at as usize..rows.len() {
        rows[i] = table::word(rows, i + w);
    }
}

// Word i of the rows of a table that has the default alone, with its action.
fn fresh_word(action: u32, i: usize, shape: &Shape) -> u32
    ensures { result ≡ fresh_word (kind_of shape.now) action i }
{
    if i < (shape.width as usize) {
        return shape.default_word(action, i);
    }
    0
}

// Writes the rows of a table that has the default alone, with its action.
pub fn fresh(action: u32, shape: &Shape, out: &mut [u32])
    requires { length out.old ≡ row_words (kind_of shape.now) }
    ensures { out.new ≡ rows_text (kind_of shape.now) (record { action = action; rules = [] }) }
{
    for i in 0..out.len() {
        out[i] = fresh_word(action, i, shape);
    }
}
