// How many locations the tree of some rules has, counted before a cell is taken. This crate keeps no words and changes none but the scratch that it is lent.
#![tactic(auto)]

ghost use Rattle.std.specs.Prelude.{◌≡◌, ◌+◌, ◌≤◌, min, take};
ghost use Rattle.model.specs.Rules.{cells};
ghost use Rattle.rows.specs.Rows.{tree_at, Scratch};

use rows::Rows;

// The number of locations of the tree of the rules whose rows begin at the first n numbers of sets, over left fields from field on; room + 1 where they are more than room. It stops as soon as they are: a tree of 64 rules can have hundreds of millions of locations. The ends of a field are gone through from the highest down: those that are still to come keep their places, and the scratch behind them is lent on. It calls itself, and the number of fields left falls.
pub fn count_chain(
    rows: &Rows,
    sets: &mut [u16],
    n: usize,
    field: u32,
    left: u32,
    room: u32,
    ends: &mut [u32],
) -> u32
    requires { Scratch n left sets.old ends.old × (field + left ≤ 64) × (room ≤ 65536) }
    ensures { result ≡ min (cells (tree_at rows.now field left (take n sets.old))) (room + 1) }
{
    if left == 0 {
        return 0;
    }
    let set = &sets[..n];
    let e = rows.high(rows::first_place(set), field);
    // Where all rules have one range from 0, the chain has one location, with the same rules under it.
    if rows.flat(set, field, e) {
        if room == 0 || left == 1 {
            return 1;
        }
        return 1 + count_chain(rows, sets, n, field + 1, left - 1, room - 1, ends);
    }
    let many = rows.ends_of(set, field, ends);
    // In the last field nothing is under a location.
    if left == 1 {
        return many.min(room as usize + 1) as u32;
    }
    let mut count = 0;
    for i in (0..many).rev() {
        if room <= count {
            return room + 1;
        }
        let spare = room - 1 - count;
        let m = rows.narrow(sets, n, field, ends[i]);
        let below = count_chain(
            rows,
            &mut sets[n..],
            m,
            field + 1,
            left - 1,
            spare,
            &mut ends[i..],
        );
        count += 1 + below;
    }
    count
}
