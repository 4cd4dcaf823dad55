// Writing a classic capture file into lent bytes: its header, and a record behind what stands there. Numbers stand in it with the least significant byte first, whatever the machine.
#![tactic(auto)]

ghost use Rattle.std.specs.Prelude.{◌≡◌, ◌+◌, ◌≤◌, length};
ghost use Rattle.std.proofs.Math.Seq.{paste};
ghost use Rattle.refusal.specs.Refusals.{number_of};
ghost use Rattle.writing.specs.Writing.{little_bytes, begin_says, begin_leaves, add_says, add_leaves};

use refusal::Refusal;

// What a call says: its answer, and how many bytes it wrote at the start of the lent ones; none with a refusal.
#[repr(C)]
#[derive(Clone, Copy)]
pub struct Written {
    pub answer: u32,
    pub bytes: u32,
}

// What a refusal says.
fn refused(refusal: Refusal) -> Written
    ensures { result ≡ record { answer = number_of refusal; bytes = 0 } }
{
    Written {
        answer: refusal.number(),
        bytes: 0,
    }
}

// Writes a file header: the magic bytes in reverse, version 2.4, two zero numbers, the snapshot length 16,384, the link type 101.
pub fn begin(out: &mut [u8]) -> Written
    ensures { (result ≡ begin_says out.old) × (out.new ≡ begin_leaves out.old) }
{
    if out.len() < 24 {
        return refused(Refusal::NoRoom);
    }
    out[..24].copy_from_slice(
        b"\xD4\xC3\xB2\xA1\x02\x00\x04\x00\x00\x00\x00\x00\x00\x00\x00\x00\x00\x40\x00\x00\x65\x00\x00\x00",
    );
    Written {
        answer: 0,
        bytes: 24,
    }
}

// Writes a record: its header, and its data. Nothing is written before nothing can be refused.
pub fn add(out: &mut [u8], seconds: u32, fraction: u32, original: u32, data: &[u8]) -> Written
    ensures { (result ≡ add_says out.old «data».now) × (out.new ≡ add_leaves out.old seconds fraction original «data».now) }
{
    let n = data.len();
    if 16384 < n {
        return refused(Refusal::NoCapture);
    }
    if out.len() < 16 + n {
        return refused(Refusal::NoRoom);
    }
    let captured = n as u32;
    put_little(out, 0, seconds);
    put_little(out, 4, fraction);
    put_little(out, 8, captured);
    put_little(out, 12, original);
    octets::copy(data, out, 16);
    Written {
        answer: 0,
        bytes: 16 + captured,
    }
}

// Puts the four bytes of a number at a place, the least significant first.
fn put_little(out: &mut [u8], at: usize, n: u32)
    requires { at + 4 ≤ length out.old }
    ensures { out.new ≡ paste out.old at (little_bytes n) 4 }
{
    out[at..at + 4].copy_from_slice(&n.to_le_bytes());
}
