// The program `keep`: reads a classic capture from standard input and writes the capture of its records whose lookup in the bench table gave the action that its argument names.
//
// Only the loop, the output and the messages are here. What the store holds is said by `rules`, what the bytes of a capture are by `capture` and `writing`, what was read of a record by `listing`, and what is asked for and what is kept by `keeping`. Memory is the same for a capture of any size.
#![tactic(auto)]

use arrayvec::ArrayString;
use capture::End;
use octets::Order;
use std::env::{Env, FillError};
use std::fmt::Write as _;
use std::io;
use std::io::Write;

fn main(rt: HostRuntime) {
    let Some(action) = argument(&rt) else {
        let _ = eprintln!(rt; "usage: keep ACTION, a number from 0 to 4294967295");
        return;
    };
    filter(&rt, action);
}

// Reads the capture and writes the new one, and says what could not be taken or written. The table is a local of this function and not of `main`, since a function pays for its locals as it begins: a wrong argument pays nothing for it.
fn filter(rt: &(impl Input + Print + Eprint), action: u32) {
    let mut words = [0u32; 16384];
    rules::fill(&mut words);
    let mut input = rt.reader();
    let mut output = io::writer(rt);
    let Some(order) = listing::read_file_header(&mut input) else {
        let _ = eprintln!(rt; "keep: the capture is not accepted, 12");
        return;
    };
    match keep(&words, action, order, &mut input, &mut output) {
        Ok(end) => say_end(rt, end),
        Err(e) => say_why(rt, e),
    }
}

// The action that the one argument names. An argument that is missing, empty or longer than the buffer is no number, and neither are two of them.
fn argument(rt: &impl Env) -> Option<u32> {
    let mut text = [0u8; 4096];
    let second = rt.arg(2, &mut text);
    if !matches!(second, Err(FillError::NotPresent)) {
        return None;
    }
    let n = rt.arg(1, &mut text).ok()?;
    keeping::action_of(&text[..n])
}

// Writes the header of the new capture and the records that are kept, and answers how the capture that is read ends. A proved loop has to end, and nothing says that the input does: so the loop stops at a number of records that no run comes to.
fn keep<R: io::Read, W: Write>(
    words: &[u32],
    action: u32,
    order: Order,
    input: &mut R,
    output: &mut W,
) -> io::Result<End> {
    let mut header = [0u8; 24];
    writing::begin(&mut header);
    output.write_all(&header)?;
    let mut head = [0u8; 16];
    let mut bytes = [0u8; 16384];
    let mut out = [0u8; 16400];
    for _ in 0..u64::MAX {
        match listing::read_record(order, input, &mut head, &mut bytes) {
            Ok(n) => {
                let k = keeping::put(words, action, order, &head, &bytes[..n], &mut out);
                output.write_all(&out[..k])?;
            }
            Err(end) => return Ok(end),
        }
    }
    Ok(End::Edge)
}

// Says how the capture ends, if not at a record's edge.
fn say_end(rt: &impl Eprint, end: End) {
    let _ = match end {
        End::Edge => Ok(()),
        End::Cut => eprintln!(rt; "keep: the capture ends in a cut record"),
        End::TooLong => eprintln!(rt; "keep: the capture ends at a record above 16384 bytes"),
    };
}

// Says why a write failed, in the system's words: its number for the error is left out.
fn say_why(rt: &impl Eprint, error: io::Error) {
    let mut text = ArrayString::<256>::new();
    let _ = write!(text, "{error}");
    let text = text.as_str();
    let words = text
        .split_once(" (os error ")
        .map_or(text, |(words, _)| words);
    let _ = eprintln!(rt; "keep: write: {words}");
}
