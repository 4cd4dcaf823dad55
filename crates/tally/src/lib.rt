// Tallies for each rule: how many packets it decided, and how many bytes they had. The lookup here is the lookup by a packet, and adds to the tally of the rule that decides.
#![tactic(auto)]

ghost use Rattle.std.specs.Prelude.{◌≡◌, ◌<◌, ◌≤◌, length};
ghost use Rattle.refusal.specs.Refusals.{answer_of};
ghost use Rattle.tally.specs.Tally.{place_of, added_at, added_in, begun_in, slot_answer, tallies_with, found_tally, found_tallies, tally_answer, tallies_left, cleared, difference as difference_of};

use lookup::Found;
use refusal::Refusal;

// The places of a tally record: one for each rule of a full table, and one for the default.
pub const PLACES: usize = 513;

// A tally record. Each place is unused where its key is above 65,535, whatever it is; else it is the tally of the rule with that number. The words may hold any numbers.
#[repr(C)]
#[derive(Clone, Copy)]
pub struct Tallies {
    pub key: [u32; PLACES],
    pub packets: [u32; PLACES],
    pub bytes: [u32; PLACES],
}

// Where a rule's number counts: at the first place that holds it, at the first unused place, which it takes, or nowhere.
#[derive(Clone, Copy)]
pub enum Place {
    Held(usize),
    New(usize),
    Full,
}

// Where a number counts. The keys are gone through once.
fn place_of(keys: &[u32], number: u32) -> Place
    ensures { result ≡ place_of number keys.now }
{
    let mut free = None;
    for (i, key) in keys.iter().enumerate() {
        if 65535 < *key {
            free = free.or(Some(i));
        } else if *key == number {
            return Place::Held(i);
        }
    }
    match free {
        Some(place) => Place::New(place),
        None => Place::Full,
    }
}

// Adds to one of the counts, which starts again at zero after 4,294,967,295.
#[tactic(auto, unfolding(crate::specs::Tally::plus))]
fn add(counts: &mut [u32; PLACES], place: usize, n: u32)
    requires { place < 513 }
    ensures { counts.new ≡ added_at place n counts.old }
{
    counts[place] = counts[place].wrapping_add(n);
}

impl Tallies {
    // Adds a packet of so many bytes at a place.
    fn add(&mut self, place: usize, length: u32)
        requires { place < 513 }
        ensures { self.new ≡ added_in place length self.old }
    {
        add(&mut self.packets, place, 1);
        add(&mut self.bytes, place, length);
    }

    // A number takes a place, and counts from zero.
    fn begin(&mut self, place: usize, number: u32)
        requires { place < 513 }
        ensures { self.new ≡ begun_in place number self.old }
    {
        self.key[place] = number;
        self.packets[place] = 0;
        self.bytes[place] = 0;
    }

    // Counts a packet of so many bytes for a rule's number. Where the number finds no place, that is refused, and nothing is changed.
    fn count(&mut self, number: u32, length: u32) -> Result<(), Refusal>
        ensures answer { answer_of result ≡ slot_answer (place_of number self.old.key) }
        ensures left { self.new ≡ tallies_with (place_of number self.old.key) number length self.old }
    {
        match place_of(&self.key, number) {
            Place::Held(place) => {
                self.add(place, length);
                Ok(())
            }
            Place::New(place) => {
                self.begin(place, number);
                self.add(place, length);
                Ok(())
            }
            Place::Full => Err(Refusal::TallyFull),
        }
    }

    // Counts what a lookup by a packet found: for the rule that decides it adds one packet and the packet's total length. 13 where the rule's number finds no place; then, and where the lookup was refused, nothing is changed.
    pub fn count_found(&mut self, found: Found, packet: &[u8]) -> Found
        requires { found.answer ≡ 0 → 20 ≤ length packet.now }
        ensures answer { result ≡ found_tally found self.old }
        ensures left { self.new ≡ found_tallies found packet.now self.old }
    {
        if found.answer != 0 {
            return found;
        }
        match self.count(found.rule, header::packet_length(packet)) {
            Ok(()) => found,
            Err(refusal) => Found::refused(refusal),
        }
    }

    // Clears the record: every place is unused, and every count is 0.
    pub fn clear(&mut self)
        ensures { self.new ≡ cleared }
    {
        self.key = [4294967295; PLACES];
        self.packets = [0; PLACES];
        self.bytes = [0; PLACES];
    }
}

// The lookup of an IPv4 packet in a store's words, with a tally record: for the rule that decides it adds one packet and the packet's total length. 13 where the rule's number finds no place; then, and with every other refusal, nothing is changed.
pub fn lookup_packet(words: &[u32], packet: &[u8], tallies: &mut Tallies) -> Found
    ensures answer { result ≡ tally_answer words.now packet.now tallies.old }
    ensures left { tallies.new ≡ tallies_left words.now packet.now tallies.old }
{
    tallies.count_found(lookup::lookup_packet(words, packet), packet)
}

// What was added to a count between two readings of it, if that was less than 4,294,967,296 and the tally was not dropped in between.
#[tactic(auto, unfolding(crate::specs::Tally::difference))]
pub fn difference(earlier: u32, later: u32) -> u32
    ensures { result ≡ difference_of earlier later }
{
    later.wrapping_sub(earlier)
}
