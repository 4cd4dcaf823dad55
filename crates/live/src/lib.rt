// Rules that never win: whether a rule is dead, and for a live one the least record of values for which a lookup names it. Words are only read, and the tree is gone through at most once.
#![tactic(auto)]

ghost use Rattle.std.specs.Prelude.{◌≡◌, suc, length};
ghost use Rattle.model.specs.Ipv4.{kind_in};
ghost use Rattle.rows.specs.Rows.{Scratch};
ghost use Rattle.table.specs.Rows.{kind_of};
ghost use Rattle.live.specs.Live.{fate, life_of, dead_says, Standing, place_of};

use refusal::Refusal;
use table::Shape;

// What is said of a rule: the answer, 1 where no record makes it the winner, and for a live rule the least record that does; zeros elsewhere.
#[repr(C)]
#[derive(Clone, Copy)]
pub struct Life {
    pub answer: u32,
    pub dead: u32,
    pub value: [u32; 6],
}

// The word of the rows at which the row of a number that stands begins; the default's is the first. (`seek::find` promises the rule that it found, and not where its row begins.)
fn place(words: &[u32], number: u32, shape: &Shape) -> u32
    requires { Standing (kind_of shape.now) words.now number }
    ensures { result ≡ place_of (kind_of shape.now) words.now number }
{
    if number == 65535 {
        return 0;
    }
    let p = shape.before(audit::rows(words, shape), words[1], number);
    shape.row_start(p + 1)
}

// Whether the rule of a number is dead, in a store of a kind. For a live one the least record that makes it the winner is written; else nothing is. The scratch is for the check, which is run once.
pub fn dead_in(
    words: &[u32],
    number: u32,
    shape: &Shape,
    sets: &mut [u16],
    ends: &mut [u32],
    out: &mut [u32],
) -> Result<bool, Refusal>
    requires { Scratch (suc shape.now.most) (length shape.now.tops.now) sets.old ends.old × (length out.old ≡ length shape.now.tops.now) }
    ensures { fate result out.new ≡ life_of (kind_of shape.now) words.now number out.old }
{
    seek::find(words, number, shape, sets, ends)?;
    let p = place(words, number, shape);
    let c = words[0];
    let part = audit::part(words, c, shape);
    Ok(!reach::reach(part, c, audit::fields(shape.tops), p, out))
}

// Whether the rule of a number is dead, and for a live one the least record; the default's under 65,535.
pub fn dead(words: &[u32], number: u32) -> Life
    ensures { result ≡ dead_says (kind_in words.now) words.now number }
{
    ipv4::with_scratch(words, |shape, sets, ends| {
        let mut value = [0u32; 6];
        let dead = dead_in(words, number, shape, sets, ends, &mut value);
        Life {
            answer: refusal::answer(dead),
            dead: dead.unwrap_or(false) as u32,
            value,
        }
    })
}
