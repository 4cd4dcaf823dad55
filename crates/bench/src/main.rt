// The bench program: starts a store of 1,024 cells, inserts rules 10 and 20, reads a classic capture from standard input and writes what the lookup says of each of its packets.
//
// Only the loop and the output are here. What the store holds is said by `rules`, what the bytes of a capture are is said by `capture`, what was read of a record and its line by `listing`, and what a packet gets by `lookup`. Memory is the same for a capture of any size.
#![tactic(auto)]

ghost use Rattle.std.specs.Prelude.{◌≡◌, ◌≤◌, length, IfOk};
ghost use Rattle.bench.specs.Room.{staying};

use octets::Order;
use std::io;
use std::io::Write;

fn main(rt: HostRuntime) -> io::Result<()> {
    let mut words = [0u32; 16384];
    rules::fill(&mut words);
    let mut input = rt.reader();
    let mut output = io::writer(&rt);
    let Some(order) = listing::read_file_header(&mut input) else {
        return output.write_all(b"refused 12\n");
    };
    output.write_all(b"packet answer rule action reads\n")?;
    list(&words, order, &mut input, &mut output)
}

// Writes a line for each record, and the last line. A proved loop has to end, and nothing says that the input does: so the loop stops at a number of records that no run comes to.
fn list<R: io::Read, W: Write>(
    words: &[u32],
    order: Order,
    input: &mut R,
    output: &mut W,
) -> io::Result<()> {
    let mut head = [0u8; 16];
    let mut bytes = [0u8; 16384];
    let mut lines = [0u8; 4096];
    let mut used = 0;
    for listed in 0..u64::MAX {
        match listing::read_record(order, input, &mut head, &mut bytes) {
            Err(end) => {
                let number = listing::number_of(end);
                output.write_all(&lines[..used])?;
                return writeln!(output, "end {listed} {number}");
            }
            Ok(n) => {
                let found = lookup::lookup_packet(words, &bytes[..n]);
                used = make_room(output, &lines, used)?;
                used = listing::put_line(&mut lines, used, listed + 1, found);
            }
        }
    }
    Ok(())
}

// Writes the lines where the next one might not fit, and answers how many bytes stay.
fn make_room<W: Write>(output: &mut W, lines: &[u8], used: usize) -> io::Result<usize>
    requires { (length lines.now ≡ 4096) × (used ≤ 4096) }
    ensures { IfOk result (λ n. (n ≤ 3991) × (n ≡ staying used)) }
{
    if used <= 3991 {
        return Ok(used);
    }
    output.write_all(&lines[..used])?;
    Ok(0)
}
