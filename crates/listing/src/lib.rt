// What the programs that list a capture's records share: how a record is read, what the bytes that could be read of it are, and the line of a record.
//
// A promise can't speak of what reading gives. So what is read is handed over, and what it is is said here.
#![tactic(auto)]

ghost use Rattle.std.specs.Prelude.{◌≡◌, ◌++◌, ◌+◌, ◌≤◌, length, take, IfOk};
ghost use Rattle.capture.specs.Pcap.{next_of, ending_of};
ghost use Rattle.listing.specs.Lines.{item, line_of};
ghost use Rattle.listing.specs.Records.{wanted_of, read_of, Opens, Reads};

use capture::End;
use itoa::Buffer;
use lookup::Found;
use octets::Order;
use std::io::Read;

// How many bytes of data are to be read behind the bytes that could be read of a record header.
pub fn wanted(order: Order, head: &[u8]) -> usize
    ensures { (result ≡ wanted_of (next_of order head.now)) × (result ≤ 16384) }
{
    capture::record_header(order, head).unwrap_or(0) as usize
}

// What was read, by the bytes that could be read of a record header and how many bytes of its data: a record of so many bytes, or how the list ends. A record of which fewer bytes could be read than were captured is cut short.
pub fn read_of(order: Order, head: &[u8], got: usize) -> Result<usize, End>
    ensures { (result ≡ read_of (next_of order head.now) got) × IfOk result (λ n. n ≤ 16384) }
{
    let captured = capture::record_header(order, head)?;
    if !capture::whole(captured, got) {
        return Err(End::Cut);
    }
    Ok(captured as usize)
}

// Reads the first bytes of a file and opens the capture. Answers the order of its numbers, or nothing where it is refused.
pub fn read_file_header<R: Read>(input: &mut R) -> Option<Order>
    ensures { Opens (R.remaining input.old) (R.remaining input.new) result }
{
    let mut head = [0u8; 24];
    let got = stream::read_full(input, &mut head);
    capture::open(&head[..got])
}

// Reads the next record: what there is of its header, and then of its data. A read that fails counts as the end of the input.
pub fn read_record<R: Read>(
    order: Order,
    input: &mut R,
    head: &mut [u8; 16],
    bytes: &mut [u8],
) -> Result<usize, End>
    requires { 16384 ≤ length bytes.old }
    ensures small { IfOk result (λ n. n ≤ 16384) }
    ensures read { Reads order head.new bytes.new (R.remaining input.old) (R.remaining input.new) result }
{
    let got = stream::read_full(input, head);
    let n = wanted(order, &head[..got]);
    let data = stream::read_full(input, &mut bytes[..n]);
    read_of(order, &head[..got], data)
}

// The number for how the list ends.
pub fn number_of(end: End) -> u64
    ensures { result ≡ ending_of end }
{
    match end {
        End::Edge => 0,
        End::Cut => 1,
        End::TooLong => 2,
    }
}

// Puts a record's line behind the bytes that are used, and answers how many are used then.
pub fn put_line(lines: &mut [u8], used: usize, place: u64, found: Found) -> usize
    requires { used + 105 ≤ length lines.old }
    ensures { (result ≤ used + 105) × (take result lines.new ≡ take used lines.old ++ line_of place found) }
{
    let used = put(lines, used, place, b' ');
    let used = put(lines, used, u64::from(found.answer), b' ');
    let used = put(lines, used, u64::from(found.rule), b' ');
    let used = put(lines, used, u64::from(found.action), b' ');
    put(lines, used, u64::from(found.reads), b'\n')
}

// Puts a number's decimal digits and one byte more at a place, and answers the place behind them.
fn put(lines: &mut [u8], at: usize, n: u64, behind: u8) -> usize
    requires { at + 21 ≤ length lines.old }
    ensures { (result ≤ at + 21) × (take result lines.new ≡ take at lines.old ++ item n behind) }
{
    let mut digits = Buffer::new();
    let text = digits.format(n).as_bytes();
    let end = at + text.len();
    octets::copy(text, lines, at);
    lines[end] = behind;
    end + 1
}
