// The worst packet of an image: the most blocks that any record of values within the tops reads, and the least record that reads so many. Words are only read. The image check is run once, and then the rules that the image holds are gone through once.
#![tactic(auto)]

ghost use Rattle.std.specs.Prelude.{◌≡◌, suc, ◌≤◌, length};
ghost use Rattle.model.specs.Ipv4.{kind_in};
ghost use Rattle.rows.specs.Rows.{tree_at, Scratch};
ghost use Rattle.table.specs.Rows.{kind_of, places as places_of};
ghost use Rattle.deepest.specs.Deepest.{weighed};
ghost use Rattle.deepest.specs.Search.{Met};
ghost use Rattle.worst.specs.Worst.{told};
ghost use Rattle.depths.specs.Depths.{image_most, image_worst};

use refusal::Refusal;
use rows::Rows;
use table::Shape;
use worst::Most;

// The most blocks that are read over the n rules of the rows; the least record that reads so many is written.
fn blocks_of(
    rows: &[u32],
    n: u32,
    shape: &Shape,
    sets: &mut [u16],
    ends: &mut [u32],
    out: &mut [u32],
) -> Option<u32>
    requires { (n ≤ 512) × Scratch (suc n) (length shape.now.tops.now) sets.old ends.old × (length out.old ≡ length shape.now.tops.now) }
    ensures { Met (weighed 0 (tree_at rows.now 0 (length shape.now.tops.now) (places_of shape.now.width n))) 0 1 result out.old out.new }
{
    shape.places(n, sets);
    let rows = Rows::of(rows);
    let fields = shape.tops.len() as u32;
    deepest::of_chain(&rows, sets, (n as usize) + 1, 0, fields, 0, 1, ends, out)
}

// The most blocks over an image of a kind. The least record that reads so many is written; with a refusal nothing is. The scratch is for the check, and for the sets and the ends of the rules.
pub fn worst_in(
    image: &[u32],
    shape: &Shape,
    sets: &mut [u16],
    ends: &mut [u32],
    out: &mut [u32],
) -> Result<u32, Refusal>
    requires { Scratch (suc shape.now.most) (length shape.now.tops.now) sets.old ends.old × (length out.old ≡ length shape.now.tops.now) }
    ensures { told result out.new ≡ image_most (kind_of shape.now) image.now out.old }
{
    if !inspect::check_in(image, shape, sets, ends) {
        return Err(Refusal::Damaged);
    }
    let rows = audit::rows(image, shape);
    // Each field reads a block at least, so there are some.
    Ok(blocks_of(rows, image[1], shape, sets, ends, out).unwrap_or(0))
}

// The most blocks that any record of values reads over an image, and the least record that reads so many.
pub fn worst(image: &[u32]) -> Most
    ensures { result ≡ image_worst (kind_in image.now) image.now }
{
    ipv4::with_scratch(image, |shape, sets, ends| {
        let mut value = [0u32; 6];
        let reads = worst_in(image, shape, sets, ends, &mut value);
        Most {
            answer: refusal::answer(reads),
            reads: reads.unwrap_or(0),
            value,
        }
    })
}
