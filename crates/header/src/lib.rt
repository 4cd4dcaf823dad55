// The packet reader: the bytes of a packet, from its IPv4 header on, to the six values that rules
// speak of. What is right stands in specs/Header.antt, and every slice has an answer.
#![tactic(auto)]

ghost use Rattle.std.specs.Prelude.{◌≡◌, cond, ◌+◌, ◌<◌, ◌≤◌, length};
ghost use Rattle.header.specs.Header.{
  header_length,
  total_length,
  has_ports,
  header_of,
  values_in,
};

use octets::Order;
use refusal::Refusal;

// A packet's values, in the order of the fields.
#[derive(Clone, Copy)]
pub struct Packet {
    pub destination: u32,
    pub source: u32,
    pub protocol: u32,
    pub destination_port: u32,
    pub source_port: u32,
    pub portless: u32,
}

impl Packet {
    // Its values, one for each field.
    pub fn values(self) -> [u32; 6]
        ensures { result ≡ values_in self }
    {
        [
            self.destination,
            self.source,
            self.protocol,
            self.destination_port,
            self.source_port,
            self.portless,
        ]
    }
}

// The values of the packet that s begins with; or the refusal of a slice that can't be read, or of one that is only the beginning of a packet whose header is sound. Each byte is read where the tests before it have shown that it is there. The test for a packet cut short comes last: it is the answer only where nothing else stands in the way.
pub fn read_header(s: &[u8]) -> Result<Packet, Refusal>
    ensures { result ≡ header_of s.now }
{
    if s.len() < 20 {
        return Err(Refusal::Unreadable);
    }
    if s[0] / 16 != 4 {
        return Err(Refusal::Unreadable);
    }
    if s[0] % 16 < 5 {
        return Err(Refusal::Unreadable);
    }
    let behind = header_length(s);
    let total = total_length(s);
    let ported = has_ports(s);
    if total < behind + ports_length(ported) {
        return Err(Refusal::Unreadable);
    }
    if s.len() < total {
        return Err(Refusal::Cut);
    }
    let destination = octets::word_at(Order::Big, s, 16);
    let source = octets::word_at(Order::Big, s, 12);
    let protocol = u32::from(s[9]);
    if ported {
        return Ok(Packet {
            destination,
            source,
            protocol,
            destination_port: octets::half_at(Order::Big, s, behind + 2),
            source_port: octets::half_at(Order::Big, s, behind),
            portless: 0,
        });
    }
    Ok(Packet {
        destination,
        source,
        protocol,
        destination_port: 0,
        source_port: 0,
        portless: 1,
    })
}

// How many bytes have to stand behind the header: those of the two ports, where the packet carries them.
fn ports_length(ported: bool) -> usize
    ensures { (result ≡ cond ported 4 0) × (result ≤ 4) }
{
    if ported { 4 } else { 0 }
}

// Whether the packet carries ports: it is TCP or UDP, and whole or the first of its fragments. The
// fragment offset is the lower thirteen bits of bytes 6 and 7; those above are flags.
#[tactic(auto, unfolding(crate::specs::Header::has_ports))]
fn has_ports(s: &[u8]) -> bool
    requires { 20 ≤ length s.now }
    ensures { result ≡ has_ports s.now }
{
    octets::half_at(Order::Big, s, 6) % 8192 == 0 && (s[9] == 6 || s[9] == 17)
}

// The header's length in bytes, which is also where that which it carries begins.
fn header_length(s: &[u8]) -> usize
    requires { 20 ≤ length s.now }
    ensures { (result ≡ header_length s.now) × (result < 64) }
{
    usize::from(s[0] % 16) * 4
}

// The packet's length in bytes, header included, as the header says it.
fn total_length(s: &[u8]) -> usize
    requires { 20 ≤ length s.now }
    ensures { result ≡ total_length s.now }
{
    packet_length(s) as usize
}

// The same as a number of 32 bits, which is what a tally adds.
pub fn packet_length(s: &[u8]) -> u32
    requires { 20 ≤ length s.now }
    ensures { (result ≡ total_length s.now) × (result < 65536) }
{
    octets::half_at(Order::Big, s, 2)
}
