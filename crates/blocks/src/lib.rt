// The blocks of a tree: what they are and the laws of them, and for the code that writes or compares them how many there are, where they stand, and what a level says of the level below it. A block is 16 words, 8 ends and then 8 links.
#![tactic(auto)]

ghost use Rattle.std.specs.Prelude.{◌≡◌, cond, ◌+◌, ◌*◌, ◌≤◌, ◌<◌, ltb, length, get_or, MatchOption};
ghost use Rattle.blocks.specs.Blocks.{top_end, depth, parts, blocks_up, links_to};

// An unused end, which is below no value.
pub const TOP_END: u32 = u32::MAX;

// The mark of a link down, which stands over the block, or the place of a rule's row, that the link leads to.
pub const DOWN_MARK: u32 = 1 << 31;

// What stands at one place of a block: an end and its link.
#[derive(Clone, Copy)]
pub struct Entry {
    pub end: u32,
    pub link: u32,
}

// Blocks that stand side by side: the first of them, and how many they are. Each level of a chain is such blocks.
#[derive(Clone, Copy)]
pub struct Span {
    pub first: usize,
    pub count: usize,
}

// The blocks of a chain: the root, which is the first of them; how many ends the chain has; and the lowest level, whose blocks hold the ends and stand last.
#[derive(Clone, Copy)]
pub struct Chain {
    pub root: usize,
    pub ends: usize,
    pub lowest: Span,
    pub ghost size: { lowest.count ≡ parts ends },
    pub ghost total: { lowest.first + lowest.count ≡ root + blocks_up (depth ends) ends },
}

// The blocks of m ends, all levels together. A slice of words is shorter than the bound.
pub fn blocks_for(m: usize) -> usize
    requires { m < 2305843009213693952 }
    ensures { result ≡ blocks_up (depth m) m }
{
    let mut level = m.div_ceil(8);
    let mut total = level;
    while 1 < level {
        level = level.div_ceil(8);
        total += level;
    }
    total
}

impl Span {
    // The block behind them.
    pub fn past(self) -> usize
        requires { self.first + self.count ≤ usize.MAX }
        ensures { result ≡ self.first + self.count }
    {
        self.first + self.count
    }

    // The level above these blocks, which has a link to each of them and stands right before them. There is none above one block.
    pub fn above(self) -> Option<Span>
        requires { 1 < self.count → parts self.count ≤ self.first }
        ensures { MatchOption result (self.count ≤ 1) (λ u. (1 < self.count) × (u.count ≡ parts self.count) × (u.first + u.count ≡ self.first)) }
    {
        if self.count <= 1 {
            return None;
        }
        let count = self.count.div_ceil(8);
        Some(Span {
            first: self.first - count,
            count,
        })
    }

    // What the level above has at place j for these blocks: the last end of block j, and the link to it; behind them an unused end, and no link.
    pub fn entry_above(self, words: &[u32], j: usize) -> Entry
        requires { (16 * (self.first + self.count) ≤ length words.now) × (self.first + self.count ≤ 16777216) }
        ensures { (result.end ≡ cond (ltb j self.count) (get_or words.now (16 * (self.first + j) + 7) 0) top_end) × (result.link ≡ links_to self.count self.first j) }
    {
        if self.count <= j {
            return Entry {
                end: TOP_END,
                link: 0,
            };
        }
        let block = self.first + j;
        Entry {
            end: words[16 * block + 7],
            link: block as u32,
        }
    }
}

impl Chain {
    // The blocks of a chain of so many ends, where the root is at a block.
    pub fn at(root: usize, ends: usize) -> Chain
        requires { (root ≤ 16777216) × (ends < 2305843009213693952) }
        ensures { (result.root ≡ root) × (result.ends ≡ ends) }
    {
        let count = ends.div_ceil(8);
        let first = root + blocks_for(ends) - count;
        Chain {
            root,
            ends,
            lowest: Span { first, count },
        }
    }
}
