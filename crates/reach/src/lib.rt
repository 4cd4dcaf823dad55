// The first record of values whose walk finds a place, over a store's cells, whatever they hold. The words are the part of a store from its two links on. They are only read; where they hold a tree, each cell is looked at once at most.
#![tactic(auto)]

ghost use Rattle.std.specs.Prelude.{◌≡◌, ◌+◌, ◌*◌, ◌%◌, ◌≤◌, length, get_or};
ghost use Rattle.reach.specs.Reach.{Reached};

// Whether a walk of a part, with a field for each value of out, finds a place. The first record whose walk does is then written; else nothing is.
pub fn reach(part: &[u32], c: u32, fields: u32, place: u32, out: &mut [u32]) -> bool
    requires { (length part.now ≡ 2 + 8 * c) × (c ≤ 65536) × (length out.old ≡ fields) }
    ensures { Reached place part.now c fields (get_or part.now 1 0) result out.old out.new }
{
    from_cell(part, c, fields, part[1], place, out)
}

// The same of the chain at cell k, with left fields from this one on. It is gone through from the lowest end up, and the first record that is found is written on the way back, value by value. Where no field is left, k is what a walk finds.
fn from_cell(part: &[u32], c: u32, left: u32, k: u32, place: u32, out: &mut [u32]) -> bool
    requires { (length part.now ≡ 2 + 8 * c) × (c ≤ 65536) × (length out.old ≡ left) }
    ensures { Reached place part.now c left k result out.old out.new }
{
    if left == 0 {
        return k == place;
    }
    let mut i = k;
    let mut n: u32 = 0;
    let mut low: u64 = 0;
    while n < c {
        if c <= i {
            return false;
        }
        let at = 2 + 8 * (i as usize);
        let below = part[at + 2];
        if from_cell(part, c, left - 1, below, place, &mut out[1..]) {
            out[0] = search::narrow(low);
            return true;
        }
        low = search::wide(part[at]) + 1;
        i = part[at + 1];
        n += 1;
    }
    false
}
