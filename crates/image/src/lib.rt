// The lookup of a packet, or of its values, over an image of a store's tree, whatever its words hold. It changes no word, and reads each block on its way once.
#![tactic(auto)]

ghost use Rattle.std.specs.Prelude.{◌≡◌, ◌+◌, ◌≤◌, length, get_or};
ghost use Rattle.model.specs.Ipv4.{kind_in};
ghost use Rattle.table.specs.Rows.{kind_of};
ghost use Rattle.header.specs.Header.{values_in};
ghost use Rattle.image.specs.Walk.{is_below, rank as rank_of, seek_blocks, walk_blocks};
ghost use Rattle.image.specs.Image.{image_in, image_lookup, image_packet, image_tally, image_tallies};

use header::Packet;
use lookup::{Found, Walked};
use refusal::Refusal;
use table::Shape;
use tally::Tallies;

// One where the end is below the value, and zero where not.
fn below(end: u32, value: u32) -> usize
    ensures { (result ≡ is_below end value) × (result ≤ 1) }
{
    usize::from(end < value)
}

// How many of the four ends from a word on are below the value, added up with no branch.
fn rank(blocks: &[u32], at: usize, value: u32) -> usize
    requires { at + 4 ≤ length blocks.now }
    ensures { (result ≡ rank_of 4 value (λ j. get_or blocks.now (at + j) 0)) × (result ≤ 4) }
{
    below(blocks[at], value)
        + below(blocks[at + 1], value)
        + below(blocks[at + 2], value)
        + below(blocks[at + 3], value)
}

// Walks one field: from the first block along the links behind the ends below the value, over at most 8 blocks, to a link that leads down. The ends of a block are counted in two halves that do not wait for each other. All eight are below the value where both counts are 4: no other two counts have that bit in common.
fn seek(blocks: &[u32], first: u32, value: u32) -> Option<Walked>
    ensures { result ≡ seek_blocks blocks.now value 8 first 0 }
{
    let mut k = first;
    for reads in 0..8 {
        if blocks.len() / 16 <= (k as usize) {
            return None;
        }
        let at = 16 * (k as usize);
        let low = rank(blocks, at, value);
        let high = rank(blocks, at + 4, value);
        if low & high == 4 {
            return None;
        }
        let link = blocks[at + (8 + (low + high))];
        if 2147483648 <= link {
            return Some(Walked {
                place: link - 2147483648,
                reads: reads + 1,
            });
        }
        k = link;
    }
    None
}

// Walks the blocks of an image, one field for each value. It may be lost.
fn walk(blocks: &[u32], values: &[u32]) -> Option<Walked>
    requires { length values.now ≤ 64 }
    ensures { result ≡ walk_blocks blocks.now values.now }
{
    lookup::through(0, values, |first, value| seek(blocks, first, value))
}

// The lookup of some values, one for each field, over an image of a kind: refused at once where the words are fewer than the front part, or name another kind.
pub fn lookup_in(image: &[u32], values: &[u32], shape: &Shape) -> Found
    requires { length values.now ≤ 64 }
    ensures { result ≡ image_in (kind_of shape.now) image.now values.now }
{
    if image.len() < 3 {
        return Found::refused(Refusal::Damaged);
    }
    if image[2] != shape.mark {
        return Found::refused(Refusal::Damaged);
    }
    let from = (shape.rows_end() as usize) + 2;
    if image.len() < from {
        return Found::refused(Refusal::Damaged);
    }
    lookup::found_in(image, walk(&image[from..], values), shape)
}

// The lookup of a packet's values, over an image of the kind that word 2 names: refused where one is above its top.
pub fn lookup(image: &[u32], packet: Packet) -> Found
    ensures { result ≡ image_lookup (kind_in image.now) image.now (values_in packet) }
{
    if !ipv4::right(packet) {
        return Found::refused(Refusal::ValueTooHigh);
    }
    let values = packet.values();
    lookup_in(image, &values, &ipv4::shape(ipv4::is_large(image)))
}

// The lookup of an IPv4 packet, whose bytes begin at its header: the header's refusal where it gives no values, and no lookup is begun.
pub fn lookup_packet(image: &[u32], packet: &[u8]) -> Found
    ensures { result ≡ image_packet image.now packet.now }
{
    let read = header::read_header(packet);
    let Ok(values) = read else {
        return lookup::refuse(refusal::answer(read));
    };
    lookup(image, values)
}

// The same lookup, with a tally record: for the rule that decides it adds one packet and the packet's total length. 13 where the rule's number finds no place; then, and with every other refusal, nothing is changed.
pub fn lookup_packet_tally(image: &[u32], packet: &[u8], tallies: &mut Tallies) -> Found
    ensures answer { result ≡ image_tally image.now packet.now tallies.old }
    ensures left { tallies.new ≡ image_tallies image.now packet.now tallies.old }
{
    tallies.count_found(lookup_packet(image, packet), packet)
}
