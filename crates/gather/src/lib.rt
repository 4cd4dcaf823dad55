// A list of edits as a C caller lends it, and the same list as numbers, for the calls on a store. A list that is longer than 32 is not gone through.
#![tactic(auto)]

ghost use Rattle.std.specs.Prelude.{◌≡◌, ◌<◌};
ghost use Rattle.gather.specs.Gather.{taken as taken_of, stepped, gathered};

use ipv4::Rule;

// An edit: remove 0 inserts the rule, any other number deletes by number.
#[repr(C)]
#[derive(Clone, Copy)]
pub struct Edit {
    pub remove: u32,
    pub number: u32,
    pub action: u32,
    pub low: [u32; 6],
    pub high: [u32; 6],
}

// The edits of a list as numbers, and how many edits the list has. Each has 16 words: remove, the row of its rule, and a 0. Of a list of more than 32 edits none is laid out, since such a list is refused by its length.
#[derive(Clone, Copy)]
pub struct Gathered {
    pub count: usize,
    pub words: [u32; 512],
}

// How many edits of a list are laid out: all, or none of more than 32.
fn taken(count: usize) -> usize
    ensures { result ≡ taken_of count }
{
    if 32 < count { 0 } else { count }
}

// Lays one edit more of a list out, at a place.
fn step(list: &mut Gathered, place: usize, edit: &Edit)
    requires { place < 32 }
    ensures { list.new ≡ stepped list.old place edit.now }
{
    let row = ipv4::row_of(Rule {
        number: edit.number,
        action: edit.action,
        low: edit.low,
        high: edit.high,
    });
    let at = 16 * place;
    list.words[at] = edit.remove;
    moves::copy(&row, 0, &mut list.words, at + 1, at + 16);
}

// The edits of a list, in order, as numbers.
pub fn gather(edits: &[Edit]) -> Gathered
    ensures { result ≡ gathered edits.now }
{
    let n = taken(edits.len());
    let mut list = Gathered {
        count: edits.len(),
        words: [0; 512],
    };
    for (i, edit) in edits[..n].iter().enumerate() {
        step(&mut list, i, edit);
    }
    list
}
