// The image of a store of any kind: how many words it takes, freezing a store into it, and the check of an image. A store is only read.
#![tactic(auto)]

ghost use Rattle.std.specs.Prelude.{◌≡◌, IfOk, true, [], ◌∷◌, ◌++◌, suc, ◌+◌, ◌≤◌, ◌<◌, length, drop};
ghost use Rattle.model.specs.Ipv4.{kind_in};
ghost use Rattle.refusal.specs.Refusals.{answer_of};
ghost use Rattle.rows.specs.Rows.{Scratch};
ghost use Rattle.table.specs.Rows.{kind_of};
ghost use Rattle.layout.specs.Store.{table_of, passes};
ghost use Rattle.frozen.specs.Frozen.{image_size, image_text, total_says, total_gives, freeze_says, freeze_words};

use refusal::Refusal;
use table::Shape;

// What C is told of an image's size: the answer, and the words that it takes, or 0 with a refusal.
#[repr(C)]
#[derive(Clone, Copy)]
pub struct Size {
    pub answer: u32,
    pub words: u32,
}

// The words that the image of a store takes. The scratch is for the check.
pub fn total_in(
    words: &[u32],
    shape: &Shape,
    sets: &mut [u16],
    ends: &mut [u32],
) -> Result<u32, Refusal>
    requires { Scratch (suc shape.now.most) (length shape.now.tops.now) sets.old ends.old }
    ensures { (answer_of result ≡ total_says (kind_of shape.now) words.now) × IfOk result (λ n. n ≡ total_gives (kind_of shape.now) words.now) }
{
    if !audit::check(words, shape, sets, ends) {
        return Err(Refusal::Damaged);
    }
    let c = words[0];
    let part = audit::part(words, c, shape);
    let blocks = lay::count(part, c, shape.tops.len() as u32);
    Ok((shape.rows_end() as usize + 2 + 16 * blocks) as u32)
}

// Writes the front of an image: 0, the words of a store behind its number of cells up to its rows' end, and 0 and 0. No word of it is written twice. (The library's `copy_from_slice` would have the C library move them.)
fn put_front(front: &mut [u32], words: &[u32])
    requires { (length front.old ≡ length words.now + 2) × (0 < length words.now) }
    ensures { front.new ≡ (0 ∷ drop 1 words.now) ++ (0 ∷ 0 ∷ []) }
{
    let n = words.len();
    front[0] = 0;
    for i in 1..n {
        front[i] = words[i];
    }
    front[n] = 0;
    front[n + 1] = 0;
}

// Writes the image of a store that passes the check into the first words of a slice that has room for it. The words behind stay.
fn write_image(words: &[u32], image: &mut [u32], shape: &Shape)
    requires { (passes (kind_of shape.now) words.now ≡ true) × (image_size (kind_of shape.now) (table_of (kind_of shape.now) words.now) ≤ length image.old) }
    ensures { image.new ≡ image_text (kind_of shape.now) (table_of (kind_of shape.now) words.now) ++ drop (image_size (kind_of shape.now) (table_of (kind_of shape.now) words.now)) image.old }
{
    let from = shape.rows_end() as usize;
    let c = words[0];
    let part = audit::part(words, c, shape);
    put_front(&mut image[..from + 2], &words[..from]);
    lay::write(&mut image[from + 2..], part, c, shape.tops.len() as u32);
}

// The words that the image of a store takes, of the kind that word 2 names.
fn sized(words: &[u32]) -> Result<u32, Refusal>
    ensures { (answer_of result ≡ total_says (kind_in words.now) words.now) × IfOk result (λ n. n ≡ total_gives (kind_in words.now) words.now) }
{
    ipv4::with_scratch(
        words,
        |shape, sets, ends| total_in(words, shape, sets, ends),
    )
}

// The words that the image of a store takes: 9, or the exact total.
pub fn total(words: &[u32]) -> Size
    ensures { (result.answer ≡ total_says (kind_in words.now) words.now) × (result.words ≡ total_gives (kind_in words.now) words.now) }
{
    let total = sized(words);
    Size {
        answer: refusal::answer(total),
        words: total.unwrap_or(0),
    }
}

// Writes the image of a store, if the words that it takes could be told and the slice has room for them.
fn write_sized(
    words: &[u32],
    image: &mut [u32],
    total: Result<u32, Refusal>,
    shape: &Shape,
) -> Result<(), Refusal>
    requires { (answer_of total ≡ total_says (kind_of shape.now) words.now) × IfOk total (λ n. n ≡ total_gives (kind_of shape.now) words.now) }
    ensures { (answer_of result ≡ freeze_says (kind_of shape.now) words.now image.old) × (image.new ≡ freeze_words (kind_of shape.now) words.now image.old) }
{
    let total = total?;
    if image.len() < total as usize {
        return Err(Refusal::NoRoom);
    }
    write_image(words, image, shape);
    Ok(())
}

// Freezes a store of a kind: its image is written into the first words of a slice that has room for it, and the words behind stay. 9, then 8 where the slice is shorter than the total; with a refusal nothing is written. The scratch is for the check.
pub fn freeze_in(
    words: &[u32],
    image: &mut [u32],
    shape: &Shape,
    sets: &mut [u16],
    ends: &mut [u32],
) -> Result<(), Refusal>
    requires { Scratch (suc shape.now.most) (length shape.now.tops.now) sets.old ends.old }
    ensures { (answer_of result ≡ freeze_says (kind_of shape.now) words.now image.old) × (image.new ≡ freeze_words (kind_of shape.now) words.now image.old) }
{
    let total = total_in(words, shape, sets, ends);
    write_sized(words, image, total, shape)
}

// Freezes a store of the kind that word 2 names. The scratch for the check is given back before the image is written.
pub fn freeze(words: &[u32], image: &mut [u32]) -> Result<(), Refusal>
    ensures { (answer_of result ≡ freeze_says (kind_in words.now) words.now image.old) × (image.new ≡ freeze_words (kind_in words.now) words.now image.old) }
{
    let total = sized(words);
    write_sized(words, image, total, &ipv4::shape(ipv4::is_large(words)))
}
