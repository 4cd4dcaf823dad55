// The worst packet of a table: the most reads that any record of values within the tops takes, and the least record that takes them. Words are only read, the check is run once, and then the tree is gone through once.
#![tactic(auto)]

ghost use Rattle.std.specs.Prelude.{◌≡◌, suc, length};
ghost use Rattle.model.specs.Ipv4.{kind_in};
ghost use Rattle.rows.specs.Rows.{Scratch};
ghost use Rattle.table.specs.Rows.{kind_of};
ghost use Rattle.worst.specs.Worst.{told, most_of, worst_says};

use refusal::Refusal;
use table::Shape;

// What is said of a table: the answer, the most reads, and the least record that takes them; zeros with a refusal.
#[repr(C)]
#[derive(Clone, Copy)]
pub struct Most {
    pub answer: u32,
    pub reads: u32,
    pub value: [u32; 6],
}

// The most reads in a store of a kind. The least record that takes them is written; with a refusal nothing is. The scratch is for the check.
pub fn worst_in(
    words: &[u32],
    shape: &Shape,
    sets: &mut [u16],
    ends: &mut [u32],
    out: &mut [u32],
) -> Result<u32, Refusal>
    requires { Scratch (suc shape.now.most) (length shape.now.tops.now) sets.old ends.old × (length out.old ≡ length shape.now.tops.now) }
    ensures { told result out.new ≡ most_of (kind_of shape.now) words.now out.old }
{
    if !audit::check(words, shape, sets, ends) {
        return Err(Refusal::Damaged);
    }
    let c = words[0];
    let part = audit::part(words, c, shape);
    Ok(best::best(part, c, audit::fields(shape.tops), out) - 2)
}

// The most reads that any record of values takes, and the least record that takes them.
pub fn worst(words: &[u32]) -> Most
    ensures { result ≡ worst_says (kind_in words.now) words.now }
{
    ipv4::with_scratch(words, |shape, sets, ends| {
        let mut value = [0u32; 6];
        let reads = worst_in(words, shape, sets, ends, &mut value);
        Most {
            answer: refusal::answer(reads),
            reads: reads.unwrap_or(0),
            value,
        }
    })
}
