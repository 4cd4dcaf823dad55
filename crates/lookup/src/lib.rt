// The lookup of a packet, or of its values, in a store's words, whatever they hold. It changes no word, and reads each cell on its way once.
#![tactic(auto)]

ghost use Rattle.std.specs.Prelude.{◌≡◌, ◌+◌, ◌*◌, ◌≤◌, ℕ, length};
ghost use Rattle.std.specs.Option.{ForSome};
ghost use Rattle.model.specs.Table.{front};
ghost use Rattle.model.specs.Ipv4.{kind_in};
ghost use Rattle.refusal.specs.Refusals.{number_of};
ghost use Rattle.header.specs.Header.{values_in};
ghost use Rattle.table.specs.Rows.{kind_of};
ghost use Rattle.layout.specs.Store.{size, cells_in};
ghost use Rattle.lookup.specs.Walk.{Field, seek_of, through, walk_of, refused, part_in, found_in, lookup_in, lookup_values, lookup_packet};

use header::Packet;
use refusal::Refusal;
use table::Shape;

// What a lookup answers: 0, the number and the action of the rule that decides, and the cells that were read; or a refusal's number and zeros.
#[repr(C)]
#[derive(Clone, Copy)]
pub struct Found {
    pub answer: u32,
    pub rule: u32,
    pub action: u32,
    pub reads: u32,
}

impl Found {
    // A refusal: its number, and zeros.
    pub fn refused(refusal: Refusal) -> Found
        ensures { result ≡ refused (number_of refusal) }
    {
        refuse(refusal.number())
    }
}

// A refusal by its number, and zeros. This is the one place where a refusal becomes an answer.
pub fn refuse(answer: u32) -> Found
    ensures { result ≡ refused answer }
{
    Found {
        answer,
        rule: 0,
        action: 0,
        reads: 0,
    }
}

// Where a walk is led down to, and how many cells it read: the place is a cell of the next field or, behind the last one, the word of the rows at which a rule's row is to begin.
#[derive(Clone, Copy)]
pub struct Walked {
    pub place: u32,
    pub reads: u32,
}

// Walks one field: from the first cell along the chain, to the first end that is not below the value, over at most c cells. It may be lost.
fn seek(part: &[u32], c: u32, first: u32, value: u32) -> Option<Walked>
    requires { (length part.now ≡ 2 + 8 * c) × (c ≤ 65536) }
    ensures { result ≡ seek_of part.now c value c first 0 }
{
    let mut k = first;
    for reads in 0..c {
        if c <= k {
            return None;
        }
        let at = 2 + 8 * (k as usize);
        if value <= part[at] {
            return Some(Walked {
                place: part[at + 2],
                reads: reads + 1,
            });
        }
        k = part[at + 1];
    }
    None
}

// Walks one field for each value, from a first place on: each field begins where the walk of the one before was led to, and the reads are added up. It is lost where the walk of a field is.
pub fn through<S: Fn(u32, u32) -> Option<Walked>>(
    first: u32,
    values: &[u32],
    seek: S,
) -> Option<Walked>
    requires short { length values.now ≤ 64 }
    requires called { S.IsAlwaysCallable seek }
    requires few { (k v : ℕ) (o : _) → S.post seek k v o → ForSome o (λ w. w.reads ≤ 65536) }
    ensures { (f : Field) → ((k v : ℕ) (o : _) → S.post seek k v o → o ≡ f k v) → result ≡ through f values.now first 0 }
{
    let mut place = first;
    let mut reads: u32 = 0;
    for value in values {
        let field = seek(place, *value)?;
        place = field.place;
        reads += field.reads;
    }
    Some(Walked { place, reads })
}

// Walks the part of a store that holds its c cells, one field for each value. It may be lost.
fn walk(part: &[u32], c: u32, values: &[u32]) -> Option<Walked>
    requires { (length part.now ≡ 2 + 8 * c) × (c ≤ 65536) × (length values.now ≤ 64) }
    ensures { result ≡ walk_of part.now c values.now }
{
    through(part[1], values, |first, value| seek(part, c, first, value))
}

// The rule of the row that a walk came to: words that lose the walk, or where no rule's row begins there, are damaged.
pub fn found_in(words: &[u32], walked: Option<Walked>, shape: &Shape) -> Found
    requires { front (kind_of shape.now) ≤ length words.now }
    ensures { result ≡ found_in (kind_of shape.now) words.now walked }
{
    let Some(Walked { place, reads }) = walked else {
        return Found::refused(Refusal::Damaged);
    };
    if !shape.begins(words[1], place) {
        return Found::refused(Refusal::Damaged);
    }
    let row = (shape.head as usize) + (place as usize);
    Found {
        answer: 0,
        rule: words[row],
        action: words[row + 1],
        reads,
    }
}

// The rule of the row that the walk of the cells comes to, where the words are enough for their c cells.
fn decide(words: &[u32], c: u32, values: &[u32], shape: &Shape) -> Found
    requires { (c ≡ cells_in words.now) × (c ≤ 65536) × (size (kind_of shape.now) c ≤ length words.now) × (length values.now ≤ 64) }
    ensures { result ≡ found_in (kind_of shape.now) words.now (walk_of (part_in (kind_of shape.now) words.now) c values.now) }
{
    let from = shape.rows_end() as usize;
    let end = from + (2 + 8 * (c as usize));
    found_in(words, walk(&words[from..end], c, values), shape)
}

// The lookup of some values, one for each field, in a store of a kind: refused at once where the words name another kind, or no number of cells within its limits, or are too few for it.
#[inline(always)]
pub fn lookup_in(words: &[u32], values: &[u32], shape: &Shape) -> Found
    requires { length values.now ≤ 64 }
    ensures { result ≡ lookup_in (kind_of shape.now) words.now values.now }
{
    if words.len() < 3 {
        return Found::refused(Refusal::Damaged);
    }
    if words[2] != shape.mark {
        return Found::refused(Refusal::Damaged);
    }
    let c = words[0];
    if c < (shape.tops.len() as u32) {
        return Found::refused(Refusal::Damaged);
    }
    if 65536 < c {
        return Found::refused(Refusal::Damaged);
    }
    if words.len() < (shape.rows_end() as usize) + (2 + 8 * (c as usize)) {
        return Found::refused(Refusal::Damaged);
    }
    decide(words, c, values, shape)
}

// The lookup of a packet's values, in a store of the kind that word 2 names: refused where one is above its top. Each kind has a branch of its own, so that the place of the first link does not wait for word 2 to be loaded. Fewer than three words name none, and are refused before, so that word 2 is loaded once.
pub fn lookup(words: &[u32], packet: Packet) -> Found
    ensures { result ≡ lookup_values (kind_in words.now) words.now (values_in packet) }
{
    if !ipv4::right(packet) {
        return Found::refused(Refusal::ValueTooHigh);
    }
    let values = packet.values();
    if words.len() < 3 {
        return Found::refused(Refusal::Damaged);
    }
    if ipv4::is_large(words) {
        return lookup_in(words, &values, &ipv4::shape(true));
    }
    lookup_in(words, &values, &ipv4::shape(false))
}

// The lookup of an IPv4 packet, whose bytes begin at its header: the header's refusal where it gives no values, and no lookup is begun.
pub fn lookup_packet(words: &[u32], packet: &[u8]) -> Found
    ensures { result ≡ lookup_packet words.now packet.now }
{
    let read = header::read_header(packet);
    let Ok(values) = read else {
        return refuse(refusal::answer(read));
    };
    lookup(words, values)
}
