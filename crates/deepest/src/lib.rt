// The most blocks that a lookup over an image reads, and the first record of values whose lookup reads so many, by the rules of its table. This crate keeps no words and changes none but the record and the scratch that it is lent.
#![tactic(auto)]

ghost use Rattle.std.specs.Prelude.{◌≡◌, ◌+◌, ◌*◌, ◌≤◌, ◌<◌, length, take};
ghost use Rattle.rows.specs.Rows.{tree_at, Scratch};
ghost use Rattle.blocks.specs.Blocks.{levels as levels_of};
ghost use Rattle.deepest.specs.Deepest.{weighed};
ghost use Rattle.deepest.specs.Search.{low_at, Above, Met};

use rows::Rows;

// How many levels the blocks of m ends have.
fn levels(m: usize) -> u32
    requires { m ≤ 2048 }
    ensures { (result ≡ levels_of m) × (result ≤ 4) }
{
    let mut n = 1;
    let mut left = m;
    while 8 < left {
        left = left.div_ceil(8);
        n += 1;
    }
    n
}

// The least value of location i of a chain: one above the end before it, and 0 where it is the first.
fn low_at(ends: &[u32], i: usize) -> u32
    requires { (i < length ends.now) × Above ends.now i }
    ensures { result ≡ low_at ends.now i }
{
    if i == 0 { 0 } else { ends[i - 1] + 1 }
}

// Of the tree of the rules whose rows begin at the first n numbers of sets, over left fields from field on, with so many blocks read above it: the most blocks that are read in all, and the first record that reads so many is written. Where they are fewer than a goal there is no answer, and nothing is written. The ends of a field are gone through from the highest down: those that are still to come keep their places, and the scratch behind them is lent on. Each location that is no worse than those above it has its record written over theirs, so what is below it is asked for no fewer than they gave. It calls itself, and the number of fields left falls.
pub fn of_chain(
    rows: &Rows,
    sets: &mut [u16],
    n: usize,
    field: u32,
    left: u32,
    above: u32,
    goal: u32,
    ends: &mut [u32],
    out: &mut [u32],
) -> Option<u32>
    requires { Scratch n left sets.old ends.old × (n ≤ 1024) × (field + left ≤ 64) × (above + 4 * left ≤ 4294967295) × (0 < goal) × (length out.old ≡ left) }
    ensures { Met (weighed above (tree_at rows.now field left (take n sets.old))) 0 goal result out.old out.new }
{
    if left == 0 {
        return if goal <= above { Some(above) } else { None };
    }
    let set = &sets[..n];
    let e = rows.high(rows::first_place(set), field);
    // Where all rules have one range from 0, the chain has one location, in one block, with the same rules under it.
    if rows.flat(set, field, e) {
        let most = of_chain(
            rows,
            sets,
            n,
            field + 1,
            left - 1,
            above + 1,
            goal,
            ends,
            &mut out[1..],
        )?;
        out[0] = 0;
        return Some(most);
    }
    let many = rows.ends_of(set, field, ends);
    let own = above + levels(many);
    // In the last field every location reads as many blocks, so the first has the least record.
    if left == 1 {
        if many == 0 || own < goal {
            return None;
        }
        out[0] = 0;
        return Some(own);
    }
    let mut best = None;
    for i in (0..many).rev() {
        let low = low_at(ends, i);
        let m = rows.narrow(sets, n, field, ends[i]);
        let below = of_chain(
            rows,
            &mut sets[n..],
            m,
            field + 1,
            left - 1,
            own,
            best.unwrap_or(goal),
            &mut ends[i..],
            &mut out[1..],
        );
        if let Some(most) = below {
            best = Some(most);
            out[0] = low;
        }
    }
    best
}
