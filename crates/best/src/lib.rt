// The most locations that a walk looks at, and the first record of values whose walk looks at so many, over a store's cells, whatever they hold. The words are the part of a store from its two links on. They are only read; where they hold a tree, each cell is looked at once.
#![tactic(auto)]

ghost use Rattle.std.specs.Prelude.{◌≡◌, ◌+◌, ◌*◌, ◌%◌, ◌≤◌, ◌<◌, length, get_or};
ghost use Rattle.search.specs.Links.{tree_in};
ghost use Rattle.best.specs.Best.{Climbed, ask_of};

// Of a part with a field for each value of out: 2 more than the most locations that a walk looks at which comes to the end of the fields, and the first record whose walk looks at so many is written. Where no walk comes to their end, 1, and nothing is written.
pub fn best(part: &[u32], c: u32, fields: u32, out: &mut [u32]) -> u32
    requires { (length part.now ≡ 2 + 8 * c) × (c ≤ 65536) × (fields ≤ 64) × (length out.old ≡ fields) }
    ensures { Climbed (tree_in part.now c fields (get_or part.now 1 0)) 1 result out.old out.new }
{
    from_cell(part, c, fields, part[1], 1, out)
}

// The same of the chain at cell k, with left fields from this one on, where the locations and 1 for the end are to be no fewer than a goal; else the goal is returned, and nothing is written. Each location that is better than those before it has its record written over theirs, so what is below it is asked for more than they gave. Where no field is left, a walk is at the end.
fn from_cell(part: &[u32], c: u32, left: u32, k: u32, goal: u32, out: &mut [u32]) -> u32
    requires { (length part.now ≡ 2 + 8 * c) × (c ≤ 65536) × (left ≤ 64) × (length out.old ≡ left) × (0 < goal) }
    ensures { Climbed (tree_in part.now c left k) goal result out.old out.new }
{
    if left == 0 {
        if goal <= 1 {
            return 2;
        }
        return goal;
    }
    let mut next = goal;
    let mut i = k;
    let mut n: u32 = 0;
    let mut low: u64 = 0;
    while n < c {
        if c <= i {
            return next;
        }
        let at = 2 + 8 * (i as usize);
        let below = part[at + 2];
        n += 1;
        let under = ask(next, n);
        let got = from_cell(part, c, left - 1, below, under, &mut out[1..]);
        if under < got {
            next = n + got;
            out[0] = search::narrow(low);
        }
        low = search::wide(part[at]) + 1;
        i = part[at + 1];
    }
    next
}

// What is asked of what is below location n: the goal without the n locations, and no less than 1.
fn ask(goal: u32, n: u32) -> u32
    ensures { result ≡ ask_of goal n }
{
    if n < goal {
        return goal - n;
    }
    1
}
