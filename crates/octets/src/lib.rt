// Numbers of 16 and 32 bits in bytes, the most significant byte first or last; and bytes copied.
#![tactic(auto)]

ghost use Rattle.std.specs.Prelude.{◌≡◌, ◌+◌, ◌<◌, ◌≤◌, length};
ghost use Rattle.std.proofs.Math.Seq.{paste};
ghost use Rattle.octets.specs.Octets.{half, word};

// The order of the bytes of a number: the most significant first, or last.
#[derive(Clone, Copy)]
pub enum Order {
    Big,
    Little,
}

// The 16-bit number at a place.
pub fn half_at(order: Order, s: &[u8], at: usize) -> u32
    requires { at + 1 < length s.now }
    ensures { (result ≡ half order s.now at) × (result < 65536) }
{
    let bytes = [s[at], s[at + 1]];
    match order {
        Order::Big => u32::from(u16::from_be_bytes(bytes)),
        Order::Little => u32::from(u16::from_le_bytes(bytes)),
    }
}

// The 32-bit number at a place. Where the order is known, the compiler makes one load of it.
pub fn word_at(order: Order, s: &[u8], at: usize) -> u32
    requires { at + 3 < length s.now }
    ensures { result ≡ word order s.now at }
{
    let bytes = [s[at], s[at + 1], s[at + 2], s[at + 3]];
    match order {
        Order::Big => u32::from_be_bytes(bytes),
        Order::Little => u32::from_le_bytes(bytes),
    }
}

// Copies all bytes of a slice to a place of another. (The library's `copy_from_slice` would have the C library move them.)
pub fn copy(from: &[u8], to: &mut [u8], at: usize)
    requires { at + length from.now ≤ length to.old }
    ensures { to.new ≡ paste to.old at from.now (length from.now) }
{
    for i in 0..from.len() {
        to[at + i] = from[i];
    }
}
