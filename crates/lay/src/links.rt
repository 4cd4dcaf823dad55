// The cells of a chain, by the links of a store's words, whatever they hold.

ghost use Rattle.std.specs.Prelude.{◌≡◌, ◌+◌, ◌*◌, ◌<◌, length};
ghost use Rattle.std.specs.Iterator.{YieldsFirst, item_count};
ghost use Rattle.cells.specs.Text.{at, cell_word};
ghost use Rattle.lay.specs.Chain.{cells_on};

// Word f of cell k.
pub fn word_of(part: &[u32], k: u32, f: usize) -> u32
    requires { at k f < length part.now }
    ensures { result ≡ cell_word part.now k f }
{
    part[2 + 8 * (k as usize) + f]
}

// The cells of a chain from one on: each leads to the next. No more of them are passed than are left.
#[derive(Drop)]
pub struct Cells<'a> {
    pub part: &'a [u32],
    pub c: u32,
    pub next: u32,
    pub left: u32,
    pub ghost whole: { length part.now ≡ 2 + 8 * c },
}

// The chain at cell k. No chain of c cells is longer than they are.
pub fn chain_at(part: &[u32], c: u32, k: u32) -> Cells<'_>
    requires { length part.now ≡ 2 + 8 * c }
    ensures { (result.part.now ≡ part.now) × (result.c ≡ c) × (result.next ≡ k) × (result.left ≡ c) }
{
    Cells {
        part,
        c,
        next: k,
        left: c,
    }
}

impl<'a> Iterator for Cells<'a> {
    type Item = u32;

    ghost next_gives = { YieldsFirst (λ s. cells_on s.part.now s.c s.left s.next) };

    ghost remaining = { item_count (λ s. cells_on s.part.now s.c s.left s.next) };

    fn next(&mut self) -> Option<u32> {
        if self.left == 0 || self.c <= self.next {
            return None;
        }
        let cell = self.next;
        self.next = word_of(self.part, cell, 1);
        self.left -= 1;
        Some(cell)
    }
}
