// What the program `keep` decides and writes: the action that its argument names, and the record of a packet whose lookup gave that action.
//
// A promise can't speak of what reading gives. So the program reads, hands over what it got, and does what is said here.
#![tactic(auto)]

ghost use Rattle.std.specs.Prelude.{◌≡◌, ◌≤◌, length, take};
ghost use Rattle.keeping.specs.Keep.{asked_in, gives, kept_bytes};

use lookup::Found;
use octets::Order;

// The action that an argument names: a decimal number from 0 to 4,294,967,295, in digits alone.
pub fn action_of(text: &[u8]) -> Option<u32>
    ensures { result ≡ asked_in text.now }
{
    if text.is_empty() {
        return None;
    }
    let mut value: u32 = 0;
    for b in text {
        let digit = char::from(*b).to_digit(10)?;
        value = value.checked_mul(10)?.checked_add(digit)?;
    }
    Some(value)
}

// Whether a lookup gave an action: it answered 0, and with that action. A refused packet has no action, though a 0 stands in its place.
fn gave(found: Found, action: u32) -> bool
    ensures { result ≡ gives action found }
{
    found.answer == 0 && found.action == action
}

// Puts a record into the lent bytes if its lookup gave the action, and answers how many bytes it has there: none if not.
pub fn put(
    words: &[u32],
    action: u32,
    order: Order,
    head: &[u8; 16],
    data: &[u8],
    out: &mut [u8],
) -> usize
    requires { (length «data».now ≤ 16384) × (length out.old ≡ 16400) }
    ensures { (result ≤ 16400) × (take result out.new ≡ kept_bytes words.now action order head.now «data».now) }
{
    if !gave(lookup::lookup_packet(words, data), action) {
        return 0;
    }
    let seconds = octets::word_at(order, head, 0);
    let fraction = octets::word_at(order, head, 4);
    let original = octets::word_at(order, head, 12);
    let written = writing::add(out, seconds, fraction, original, data);
    written.bytes as usize
}
