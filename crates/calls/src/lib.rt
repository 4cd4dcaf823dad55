// The calls of the library on the case of a line: what is given as numbers and bytes, and what is answered as sixteen numbers, with zeros behind the last.
#![tactic(auto)]

ghost use Rattle.std.specs.Prelude.{◌≡◌, ◌≢◌, ◌∷◌, false, replicate, None, Some, IfSome};
ghost use Rattle.calls.specs.Calls.{word_of, given_to};
ghost use Rattle.calls.specs.declared.Call.{Call};

#[cfg(test)]
mod tests;

use header::Packet;
use ipv4::Rule;
use lookup::Found;
use refusal::{Refusal, answer};
use script::{Case, padded};
use seek::Count;

// The calls. `Same` is on two stores, so that whoever has both of them makes it.
#[derive(Clone, Copy, PartialEq, Eq)]
pub enum Call {
    Room,
    Swap,
    Same,
    Start,
    Insert,
    Delete,
    Read,
    Cells,
    Check,
    Lookup,
    Packet,
    Header,
}

impl Call {
    // The call of a word, if there is such a call.
    pub fn of(word: &[u8]) -> Option<Call>
        ensures named { IfSome result (λ k. word.now ≡ word_of k) }
        ensures every { (k : Call) → word.now ≡ word_of k → result ≡ Some k }
    {
        match word {
            b"room" => Some(Call::Room),
            b"swap" => Some(Call::Swap),
            b"same" => Some(Call::Same),
            b"start" => Some(Call::Start),
            b"insert" => Some(Call::Insert),
            b"delete" => Some(Call::Delete),
            b"read" => Some(Call::Read),
            b"cells" => Some(Call::Cells),
            b"check" => Some(Call::Check),
            b"lookup" => Some(Call::Lookup),
            b"packet" => Some(Call::Packet),
            b"header" => Some(Call::Header),
            _ => None,
        }
    }
}

// Makes the call of a case on the words of a store. Where there is no such call, or it is given too many or too few numbers, every number is 4,294,967,295.
pub fn answers(call: Option<Call>, case: &Case, words: &mut [u32]) -> [u32; 16]
    ensures no_call { call ≡ None → result ≡ replicate 16 4294967295 }
    ensures spoilt { case.now.whole ≡ false → result ≡ replicate 16 4294967295 }
    ensures count { IfSome call (λ k. case.now.given_count ≢ given_to k → result ≡ replicate 16 4294967295) }
{
    let (Some(call), Some(given)) = (call, case.given()) else {
        return [u32::MAX; 16];
    };
    match (call, given) {
        (Call::Room, [count, value]) => {
            words.fill(*value);
            first(*count)
        }
        (Call::Swap | Call::Same, []) => [0; 16],
        (Call::Start, [cells, action]) => first(answer(store::start(words, *cells, *action))),
        (
            Call::Insert,
            [
                number,
                action,
                l0,
                h0,
                l1,
                h1,
                l2,
                h2,
                l3,
                h3,
                l4,
                h4,
                l5,
                h5,
            ],
        ) => {
            let rule = Rule {
                number: *number,
                action: *action,
                low: [*l0, *l1, *l2, *l3, *l4, *l5],
                high: [*h0, *h1, *h2, *h3, *h4, *h5],
            };
            first(answer(store::insert(words, rule)))
        }
        (Call::Delete, [number]) => first(answer(store::delete(words, *number))),
        (Call::Read, [number]) => reading(reading::read(words, *number)),
        (Call::Cells, []) => counted(reading::cells(words)),
        (Call::Check, []) => checked(reading::check(words)),
        (
            Call::Lookup,
            [
                destination,
                source,
                protocol,
                destination_port,
                source_port,
                portless,
            ],
        ) => {
            let packet = Packet {
                destination: *destination,
                source: *source,
                protocol: *protocol,
                destination_port: *destination_port,
                source_port: *source_port,
                portless: *portless,
            };
            found(lookup::lookup(words, packet))
        }
        (Call::Packet, []) => found(lookup::lookup_packet(words, case.bytes())),
        (Call::Header, []) => values(header::read_header(case.bytes())),
        _ => [u32::MAX; 16],
    }
}

// One number.
pub fn first(a: u32) -> [u32; 16]
    ensures { result ≡ a ∷ replicate 15 0 }
{
    padded(&[a])
}

// What the check answers: 0 where the store passes, and 9 where it fails.
fn checked(passes: bool) -> [u32; 16] {
    first(if passes { 0 } else { Refusal::Damaged.number() })
}

// What counting the cells answers: the answer, and the cells in use.
fn counted(c: Count) -> [u32; 16] {
    padded(&[c.answer, c.cells])
}

// What a lookup answers: the answer, the rule, the action, and the reads.
fn found(f: Found) -> [u32; 16] {
    padded(&[f.answer, f.rule, f.action, f.reads])
}

// What reading a packet's header answers: the answer, and the values.
fn values(packet: Result<Packet, Refusal>) -> [u32; 16] {
    match packet {
        Ok(p) => padded(&[
            0,
            p.destination,
            p.source,
            p.protocol,
            p.destination_port,
            p.source_port,
            p.portless,
        ]),
        Err(refusal) => first(refusal.number()),
    }
}

// What reading a rule answers: the answer, and the rule as it is given.
fn reading(read: Result<Rule, Refusal>) -> [u32; 16] {
    match read {
        Ok(rule) => {
            let l = rule.low;
            let h = rule.high;
            padded(&[
                0,
                rule.number,
                rule.action,
                l[0],
                h[0],
                l[1],
                h[1],
                l[2],
                h[2],
                l[3],
                h[3],
                l[4],
                h[4],
                l[5],
                h[5],
            ])
        }
        Err(refusal) => first(refusal.number()),
    }
}
