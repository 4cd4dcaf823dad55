// Whether a cell, a run of cells or the free chain stands where it should: the parts of a comparison of words with the text of a tree.
#![tactic(auto)]

ghost use Rattle.std.specs.Prelude.{◌≡◌, [], ◌∷◌, ◌+◌, ◌-◌, ◌*◌, ◌≤◌, ◌<◌, length, get_or};
ghost use Rattle.model.specs.Rules.{ends as ends_of};
ghost use Rattle.rows.specs.Rows.{field_at, first_of, tree_at};
ghost use Rattle.cells.specs.Text.{only_down, frees};
ghost use Rattle.model.specs.Lists.{same};
ghost use Rattle.stands.specs.Stands.{Room, from, head_is, rest_is, told, heads_are, told_run};

use cells::Below;
use rows::Rows;

// Where the text of a tree or of a run stands that was looked for from a cell on: the cell behind its last one, and what a cell above it says.
#[derive(Clone, Copy)]
pub struct Stands {
    pub past: u32,
    pub says: Below,
}

// Whether cell k has an end and a next.
fn head_is(words: &[u32], c: u32, k: u32, end: u32, next: u32) -> bool
    requires { Room words.now c × (k < c) }
    ensures { result ≡ head_is words.now k end next }
{
    let i = 2 + 8 * (k as usize);
    words[i] == end && words[i + 1] == next
}

// Whether cell k says what is below it, and then zeros. All six words are read before the first is tested: one test of them all is made of that.
pub fn rest_is(words: &[u32], c: u32, k: u32, under: Below) -> bool
    requires { Room words.now c × (k < c) }
    ensures { result ≡ rest_is words.now k under }
{
    let i = 2 + 8 * (k as usize);
    let rest = [
        words[i + 2],
        words[i + 3],
        words[i + 4],
        words[i + 5],
        words[i + 6],
        words[i + 7],
    ];
    rest == [under.down, under.side, 0, 0, 0, 0]
}

// The end of cell k.
pub fn end_at(words: &[u32], c: u32, k: u32) -> u32
    requires { Room words.now c × (k < c) }
    ensures { result ≡ get_or words.now (2 + 8 * k) 0 }
{
    words[2 + 8 * (k as usize)]
}

// Whether cell k is the run of one end.
pub fn one_is(words: &[u32], c: u32, end: u32, k: u32) -> bool
    requires { Room words.now c × (k ≤ c) }
    ensures { result ≡ heads_are words.now c k (end ∷ []) }
{
    k < c && head_is(words, c, k, end, c)
}

// Whether the cells from k on are the run of the ends, which rise: the highest first, each with the cell before it as its next.
fn run_of(words: &[u32], c: u32, ends: &[u32], k: u32) -> Option<Stands>
    requires { Room words.now c × (k ≤ c) }
    ensures { result ≡ told_run words.now c k ends.now }
{
    let mut next = k;
    let mut head = c;
    for &end in ends.iter().rev() {
        if c <= next || !head_is(words, c, next, end, head) {
            return None;
        }
        head = next;
        next += 1;
    }
    Some(Stands {
        past: next,
        says: Below {
            down: head,
            side: 0,
        },
    })
}

// Whether the cells from k on are the run of the ends of the rules of the set in a field. The ends are written beside, over what stood there.
pub fn run_is(
    words: &[u32],
    c: u32,
    rules: &[u32],
    set: &[u16],
    field: u32,
    k: u32,
    ends: &mut [u32],
) -> Option<Stands>
    requires { Room words.now c × (k ≤ c) × (2 * length set.now ≤ length ends.old) }
    ensures { result ≡ told_run words.now c k (ends_of (field_at rules.now field) set.now) }
{
    let n = Rows::of(rules).ends_of(set, field, ends);
    run_of(words, c, &ends[..n], k)
}

// What stands from cell k on where no field is left: no cell, and above it the place of the first rule of the set is said.
pub fn leaf(set: &[u16], k: u32) -> Stands
    ensures { (result.past ≡ k) × (result.says ≡ only_down (first_of set.now)) }
{
    Stands {
        past: k,
        says: Below {
            down: rows::first_place(set),
            side: 0,
        },
    }
}

// Whether each cell of a run of the last field, which stands from cell k on, names the first rule that covers its end.
pub fn last_is(
    words: &[u32],
    c: u32,
    rules: &[u32],
    set: &[u16],
    field: u32,
    k: u32,
    run: Stands,
) -> Option<Stands>
    requires { Room words.now c × (k ≤ c) × (told_run words.now c k (ends_of (field_at rules.now field) set.now) ≡ Some run) }
    ensures { result ≡ told words.now c k (tree_at rules.now field 1 set.now) }
{
    let rows = Rows::of(rules);
    for i in k..run.past {
        let e = end_at(words, c, i);
        let named = rows.least(set, field, e);
        if !rest_is(
            words,
            c,
            i,
            Below {
                down: named,
                side: 0,
            },
        ) {
            return None;
        }
    }
    Some(run)
}

// Whether the cells from k on are the free chain.
pub fn free_from(words: &[u32], c: u32, k: u32) -> bool
    requires { Room words.now c }
    ensures { result ≡ same (from words.now k) (frees k (c - k)) }
{
    (k..c).all(|i| {
        head_is(words, c, i, 0, i + 1) && rest_is(words, c, i, Below { down: 0, side: 0 })
    })
}
