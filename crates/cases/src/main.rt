// Runs cases through the compiled calls. A line of the standard input is a case: a call, what it is given, '=', and what it has to answer. `stdin` says how one is written.
// A line is written for each case that answers something else, and at last how many cases there were, and how many of them differ.
#![tactic(auto)]

ghost use Rattle.std.specs.Prelude.{◌≡◌, true, ◌+◌, ◌-◌, ◌≤◌, slice_range};

use calls::Call;
use script::Case;
use std::io;
use std::io::Write;
use std::ops::Range;

// The words of two stores, with room for 16,384 each.
type Words = [u32; 32768];

// Where the store in hand begins among the words, and how many words it has, and the one aside, which begins in the other half.
#[derive(Drop)]
struct Hand {
    at: usize,
    here: usize,
    aside: usize,
    ghost begins: { at ≤ 16384 },
    ghost here_fits: { here ≤ 16384 },
    ghost aside_fits: { aside ≤ 16384 },
}

// How many cases there were, and how many of them differ.
#[derive(Clone, Copy, Default)]
struct Tally {
    cases: u64,
    differ: u64,
}

fn main(rt: HostRuntime) -> io::Result<()> {
    let mut text = [0u8; 262144];
    let mut words = [0u32; 32768];
    let mut input = rt.reader();
    let mut output = io::writer(&rt);
    let n = stream::read_full(&mut input, &mut text);
    let Tally { cases, differ } = run(&text[..n], &mut words, &mut output)?;
    writeln!(output, "cases {cases} differ {differ}")
}

// Runs every line of a text.
fn run<W: Write>(text: &[u8], words: &mut Words, output: &mut W) -> io::Result<Tally> {
    let mut hand = Hand {
        at: 0,
        here: 0,
        aside: 0,
    };
    let mut tally = Tally::default();
    for (number, line) in (1u64..).zip(text.split(|b| *b == b'\n')) {
        let case = script::read(line);
        if !case.is_there() {
            continue;
        }
        let call = Call::of(case.word);
        hand.turn(call, &case);
        tally.cases = tally.cases.saturating_add(1);
        let got = answers(call, &case, words, &hand);
        if got != case.wanted {
            tell(output, number, &got)?;
            tally.differ = tally.differ.saturating_add(1);
        }
    }
    Ok(tally)
}

impl Hand {
    // Takes the store for a call in hand: one of so many words as are given first, even where the call is refused, or the one that was aside.
    fn turn(&mut self, call: Option<Call>, case: &Case) {
        match call {
            Some(Call::Swap) => {
                self.at = 16384 - self.at;
                std::mem::swap(&mut self.here, &mut self.aside);
            }
            Some(Call::Room) => {
                let n = case.first_given();
                if n <= 16384 {
                    self.here = n as usize;
                }
            }
            _ => {}
        }
    }

    // The words in hand.
    fn here(&self) -> Range<usize>
        ensures { (result.start ≡ self.now.at) × (result.end ≡ self.now.at + self.now.here) }
    {
        self.at..self.at + self.here
    }

    // The words aside.
    fn aside(&self) -> Range<usize>
        ensures { (result.start ≡ 16384 - self.now.at) × (result.end ≡ 16384 - self.now.at + self.now.aside) }
    {
        let from = 16384 - self.at;
        from..from + self.aside
    }
}

// Makes the call of a case on the store in hand.
fn answers(call: Option<Call>, case: &Case, words: &mut Words, hand: &Hand) -> [u32; 16] {
    if call == Some(Call::Same) {
        return calls::first(u32::from(same(words, hand)));
    }
    calls::answers(call, case, &mut words[hand.here()])
}

// Whether the two stores hold the same words.
fn same(words: &Words, hand: &Hand) -> bool
    ensures { result ≡ true → slice_range words.now hand.now.at (hand.now.at + hand.now.here) ≡ slice_range words.now (16384 - hand.now.at) (16384 - hand.now.at + hand.now.aside) }
{
    &words[hand.here()] == &words[hand.aside()]
}

// Writes the number of a line and the numbers that its call answers.
fn tell<W: Write>(output: &mut W, number: u64, got: &[u32; 16]) -> io::Result<()> {
    write!(output, "line {number}")?;
    for n in got {
        write!(output, " {n}")?;
    }
    writeln!(output)
}
