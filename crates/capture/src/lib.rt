// A classic capture file: how it is opened, and what the next record is.
#![tactic(auto)]

ghost use Rattle.std.specs.Prelude.{◌≡◌, ◌≤◌, leb, IfOk};
ghost use Rattle.capture.specs.Pcap.{by_magic, opened, next_of};

use octets::Order;

// How the records of a capture end.
#[derive(Clone, Copy)]
pub enum End {
    // At a record's edge.
    Edge,
    // With a record that is cut short, in its header or in its data.
    Cut,
    // At a record header whose captured length is above 16,384.
    TooLong,
}

// The order that the first four bytes show: the magic bytes as they stand, or in reverse.
#[tactic(auto, unfolding(crate::specs::Pcap::by_magic))]
fn by_magic(s: &[u8]) -> Option<Order>
    ensures { result ≡ by_magic s.now }
{
    if s.starts_with(b"\xA1\xB2\xC3\xD4") {
        return Some(Order::Big);
    }
    s.starts_with(b"\xD4\xC3\xB2\xA1").then_some(Order::Little)
}

// Opens a capture by the first bytes of its file: 24 of them, version 2.4, and raw IP as the whole link type. Answers the order of its numbers, or nothing where it is refused.
#[tactic(auto, unfolding(crate::specs::Pcap::opened, crate::specs::Pcap::accepted))]
pub fn open(s: &[u8]) -> Option<Order>
    ensures { result ≡ opened s.now }
{
    if s.len() < 24 {
        return None;
    }
    let order = by_magic(s)?;
    let accepted = octets::half_at(order, s, 4) == 2
        && octets::half_at(order, s, 6) == 4
        && octets::word_at(order, s, 20) == 101;
    accepted.then_some(order)
}

// What comes next, by the bytes that could be read of a record header, 16 or fewer where the capture ends: a record of so many captured bytes, or the end.
#[tactic(auto, unfolding(crate::specs::Pcap::next_of))]
pub fn record_header(order: Order, bytes: &[u8]) -> Result<u32, End>
    ensures value { result ≡ next_of order bytes.now }
    ensures small { IfOk result (λ captured. captured ≤ 16384) }
{
    if bytes.is_empty() {
        return Err(End::Edge);
    }
    if bytes.len() < 16 {
        return Err(End::Cut);
    }
    let captured = octets::word_at(order, bytes, 8);
    if 16384 < captured {
        return Err(End::TooLong);
    }
    Ok(captured)
}

// Whether a record is whole: as many bytes of its data could be read as were captured.
pub fn whole(captured: u32, got: usize) -> bool
    ensures { result ≡ leb captured got }
{
    captured as usize <= got
}
