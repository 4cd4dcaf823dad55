// The C face of the library, as include/reamstork.h declares it: exported functions and nothing else. Each says, for every input, what it returns and what every lent word then holds.
#![tactic(auto)]

ghost use Rattle.std.specs.Prelude.{◌≡◌, [], ◌∷◌, map, IfOk, IfErr};
ghost use Rattle.refusal.specs.Refusals.{answer_of};
ghost use Rattle.model.specs.Table.{start_action};
ghost use Rattle.model.specs.Ipv4.{large, kind_in};
ghost use Rattle.ipv4.specs.Rule.{given};
ghost use Rattle.prefix.specs.Prefix.{range_of};
ghost use Rattle.layout.specs.Store.{start_answer, start_words, insert_says, insert_words, delete_says, delete_words, read_says, read_gives, place_says, place_gives, cells_says, cells_gives, carry_says, carry_words, zero_rule};
ghost use Rattle.series.specs.Edits.{list_says, list_words};
ghost use Rattle.gather.specs.Gather.{edit_of};
ghost use Rattle.lookup.specs.Walk.{lookup_values, lookup_packet};
ghost use Rattle.tally.specs.Tally.{tally_answer, tallies_left, cleared, difference};
ghost use Rattle.scan.specs.Scan.{scan_values};
ghost use Rattle.live.specs.Live.{dead_says};
ghost use Rattle.worst.specs.Worst.{worst_says};
ghost use Rattle.frozen.specs.Frozen.{total_says, total_gives, freeze_says, freeze_words, image_says};
ghost use Rattle.image.specs.Image.{image_lookup, image_packet, image_tally, image_tallies};
ghost use Rattle.depths.specs.Depths.{image_worst};
ghost use Rattle.writing.specs.Writing.{begin_says, begin_leaves, add_says, add_leaves};
ghost use Rattle.reamstork.specs.Face.{rule_of, rule_read, check_says};

use freeze::Size;
use gather::Edit;
use header::Packet;
use ipv4::Rule;
use live::Life;
use lookup::Found;
use prefix::Range;
use refusal::Refusal;
use scan::Winner;
use seek::Count;
use series::Listed;
use tally::Tallies;
use worst::Most;
use writing::Written;

// What reading a rule gives: the answer, and the rule, or zeros with a refusal.
#[repr(C)]
#[derive(Clone, Copy)]
pub struct Reading {
    pub answer: u32,
    pub number: u32,
    pub action: u32,
    pub low: [u32; 6],
    pub high: [u32; 6],
}

// Starts a large store of c cells without a named action: the default has action 0.
#[unsafe(no_mangle)]
pub extern "C" fn reamstork_start(words: &mut [u32], c: u32) -> u32
    ensures { (result ≡ start_answer large words.old c) × (words.new ≡ start_words large words.old c start_action) }
{
    refusal::answer(store::start(words, c, 0))
}

// Starts a large store of c cells whose default rule has an action.
#[unsafe(no_mangle)]
pub extern "C" fn reamstork_start_with(words: &mut [u32], c: u32, action: u32) -> u32
    ensures { (result ≡ start_answer large words.old c) × (words.new ≡ start_words large words.old c action) }
{
    refusal::answer(store::start(words, c, action))
}

// Inserts a rule.
#[unsafe(no_mangle)]
pub extern "C" fn reamstork_insert(
    words: &mut [u32],
    number: u32,
    action: u32,
    low: &[u32; 6],
    high: &[u32; 6],
) -> u32
    ensures { (result ≡ insert_says (kind_in words.old) words.old (rule_of number action low.now high.now)) × (words.new ≡ insert_words (kind_in words.old) words.old (rule_of number action low.now high.now)) }
{
    let rule = Rule {
        number,
        action,
        low: *low,
        high: *high,
    };
    refusal::answer(store::insert(words, rule))
}

// Deletes the rule of a number.
#[unsafe(no_mangle)]
pub extern "C" fn reamstork_delete(words: &mut [u32], number: u32) -> u32
    ensures { (result ≡ delete_says (kind_in words.old) words.old number) × (words.new ≡ delete_words (kind_in words.old) words.old number) }
{
    refusal::answer(store::delete(words, number))
}

// Takes a list of up to 32 edits in order: all of them are done, or none.
#[unsafe(no_mangle)]
pub extern "C" fn reamstork_edit_list(words: &mut [u32], edits: &[Edit]) -> Listed
    ensures { (result ≡ list_says (kind_in words.old) words.old (map edit_of edits.now)) × (words.new ≡ list_words (kind_in words.old) words.old (map edit_of edits.now)) }
{
    let list = gather::gather(edits);
    store::edit_list(words, list)
}

// The store check: 0 where the store passes, else 9.
#[unsafe(no_mangle)]
pub extern "C" fn reamstork_check(words: &[u32]) -> u32
    ensures { result ≡ check_says words.now }
{
    if reading::check(words) {
        0
    } else {
        Refusal::Damaged.number()
    }
}

// What was read, for C: the rule, or the refusal's number and zeros.
fn for_c(read: Result<Rule, Refusal>) -> Reading
    ensures { (result.answer ≡ answer_of read) × IfOk read (λ rule. rule_read result ≡ given rule) × IfErr read (λ refusal. rule_read result ≡ zero_rule large) }
{
    let rule = reading::or_zeros(read);
    let low = rule.low;
    let high = rule.high;
    Reading {
        answer: refusal::answer(read),
        number: rule.number,
        action: rule.action,
        low,
        high,
    }
}

// Reads the rule of a number; the default under 65,535.
#[unsafe(no_mangle)]
pub extern "C" fn reamstork_read(words: &[u32], number: u32) -> Reading
    ensures { (result.answer ≡ read_says (kind_in words.now) words.now number) × (rule_read result ≡ read_gives (kind_in words.now) words.now number) }
{
    for_c(reading::read(words, number))
}

// Reads the rule at a place. Places are counted from 1, by rising number.
#[unsafe(no_mangle)]
pub extern "C" fn reamstork_rule_at(words: &[u32], place: u32) -> Reading
    ensures { (result.answer ≡ place_says (kind_in words.now) words.now place) × (rule_read result ≡ place_gives (kind_in words.now) words.now place) }
{
    for_c(reading::rule_at(words, place))
}

// Counts the cells in use.
#[unsafe(no_mangle)]
pub extern "C" fn reamstork_cells(words: &[u32]) -> Count
    ensures { (result.answer ≡ cells_says (kind_in words.now) words.now) × (result.cells ≡ cells_gives (kind_in words.now) words.now) }
{
    reading::cells(words)
}

// Says whether the rule of a number never wins, and for one that does the least record that it decides.
#[unsafe(no_mangle)]
pub extern "C" fn reamstork_dead(words: &[u32], number: u32) -> Life
    ensures { result ≡ dead_says (kind_in words.now) words.now number }
{
    live::dead(words, number)
}

// Says the most reads that any values take in a table, and the least record that takes them.
#[unsafe(no_mangle)]
pub extern "C" fn reamstork_worst(words: &[u32]) -> Most
    ensures { result ≡ worst_says (kind_in words.now) words.now }
{
    worst::worst(words)
}

// Carries the table of a store of either kind into lent words, as a large store of c cells.
#[unsafe(no_mangle)]
pub extern "C" fn reamstork_carry(from: &[u32], words: &mut [u32], c: u32) -> u32
    ensures { (result ≡ carry_says (kind_in from.now) large from.now words.old c) × (words.new ≡ carry_words (kind_in from.now) large from.now words.old c) }
{
    refusal::answer(store::carry(from, words, c))
}

// Looks six values up.
#[unsafe(no_mangle)]
pub extern "C" fn reamstork_lookup(
    words: &[u32],
    destination: u32,
    source: u32,
    protocol: u32,
    destination_port: u32,
    source_port: u32,
    portless: u32,
) -> Found
    ensures { result ≡ lookup_values (kind_in words.now) words.now (destination ∷ source ∷ protocol ∷ destination_port ∷ source_port ∷ portless ∷ []) }
{
    lookup::lookup(
        words,
        Packet {
            destination,
            source,
            protocol,
            destination_port,
            source_port,
            portless,
        },
    )
}

// Looks an IPv4 packet up, whose bytes begin at its header.
#[unsafe(no_mangle)]
pub extern "C" fn reamstork_lookup_packet(words: &[u32], packet: &[u8]) -> Found
    ensures { result ≡ lookup_packet words.now packet.now }
{
    lookup::lookup_packet(words, packet)
}

// Looks six values up in a list of rule records, with no store.
#[unsafe(no_mangle)]
pub extern "C" fn reamstork_scan(
    records: &[Rule],
    default_action: u32,
    destination: u32,
    source: u32,
    protocol: u32,
    destination_port: u32,
    source_port: u32,
    portless: u32,
) -> Winner
    ensures { result ≡ scan_values records.now default_action destination source protocol destination_port source_port portless }
{
    scan::scan(
        records,
        default_action,
        Packet {
            destination,
            source,
            protocol,
            destination_port,
            source_port,
            portless,
        },
    )
}

// Turns an address prefix into a range.
#[unsafe(no_mangle)]
pub extern "C" fn reamstork_prefix(address: u32, length: u32) -> Range
    ensures { result ≡ range_of address length }
{
    prefix::range_of(address, length)
}

// Clears a tally record: every place is unused, and every count is 0.
#[unsafe(no_mangle)]
pub extern "C" fn reamstork_tallies_clear(tallies: &mut Tallies)
    ensures { tallies.new ≡ cleared }
{
    tallies.clear()
}

// Looks an IPv4 packet up, and adds to the tally of the rule that decides.
#[unsafe(no_mangle)]
pub extern "C" fn reamstork_lookup_packet_tally(
    words: &[u32],
    packet: &[u8],
    tallies: &mut Tallies,
) -> Found
    ensures { (result ≡ tally_answer words.now packet.now tallies.old) × (tallies.new ≡ tallies_left words.now packet.now tallies.old) }
{
    tally::lookup_packet(words, packet, tallies)
}

// What was added to a count between two readings of it.
#[unsafe(no_mangle)]
pub extern "C" fn reamstork_tally_difference(earlier: u32, later: u32) -> u32
    ensures { result ≡ difference earlier later }
{
    tally::difference(earlier, later)
}

// Says how many words the image of a store takes.
#[unsafe(no_mangle)]
pub extern "C" fn reamstork_image_words(words: &[u32]) -> Size
    ensures { (result.answer ≡ total_says (kind_in words.now) words.now) × (result.words ≡ total_gives (kind_in words.now) words.now) }
{
    freeze::total(words)
}

// Freezes a store: its image is written into the first words of a slice.
#[unsafe(no_mangle)]
pub extern "C" fn reamstork_freeze(words: &[u32], image: &mut [u32]) -> u32
    ensures { (result ≡ freeze_says (kind_in words.now) words.now image.old) × (image.new ≡ freeze_words (kind_in words.now) words.now image.old) }
{
    refusal::answer(freeze::freeze(words, image))
}

// The image check: 0 where the words are an image of their exact length, else 9.
#[unsafe(no_mangle)]
pub extern "C" fn reamstork_image_check(image: &[u32]) -> u32
    ensures { result ≡ image_says (kind_in image.now) image.now }
{
    if inspect::check(image) {
        0
    } else {
        Refusal::Damaged.number()
    }
}

// Says the most blocks that any values read over an image, and the least record that reads so many.
#[unsafe(no_mangle)]
pub extern "C" fn reamstork_image_worst(image: &[u32]) -> Most
    ensures { result ≡ image_worst (kind_in image.now) image.now }
{
    depths::worst(image)
}

// Looks six values up in an image.
#[unsafe(no_mangle)]
pub extern "C" fn reamstork_image_lookup(
    image: &[u32],
    destination: u32,
    source: u32,
    protocol: u32,
    destination_port: u32,
    source_port: u32,
    portless: u32,
) -> Found
    ensures { result ≡ image_lookup (kind_in image.now) image.now (destination ∷ source ∷ protocol ∷ destination_port ∷ source_port ∷ portless ∷ []) }
{
    image::lookup(
        image,
        Packet {
            destination,
            source,
            protocol,
            destination_port,
            source_port,
            portless,
        },
    )
}

// Looks an IPv4 packet up in an image; its bytes begin at its header.
#[unsafe(no_mangle)]
pub extern "C" fn reamstork_image_lookup_packet(image: &[u32], packet: &[u8]) -> Found
    ensures { result ≡ image_packet image.now packet.now }
{
    image::lookup_packet(image, packet)
}

// Looks an IPv4 packet up in an image, and adds to the tally of the rule that decides.
#[unsafe(no_mangle)]
pub extern "C" fn reamstork_image_lookup_packet_tally(
    image: &[u32],
    packet: &[u8],
    tallies: &mut Tallies,
) -> Found
    ensures { (result ≡ image_tally image.now packet.now tallies.old) × (tallies.new ≡ image_tallies image.now packet.now tallies.old) }
{
    image::lookup_packet_tally(image, packet, tallies)
}

// Begins a capture: writes a file header into the first bytes of a slice.
#[unsafe(no_mangle)]
pub extern "C" fn reamstork_capture_begin(out: &mut [u8]) -> Written
    ensures { (result ≡ begin_says out.old) × (out.new ≡ begin_leaves out.old) }
{
    writing::begin(out)
}

// Adds a record to a capture: writes its header and its data into the first bytes of a slice.
#[unsafe(no_mangle)]
pub extern "C" fn reamstork_capture_add(
    out: &mut [u8],
    seconds: u32,
    fraction: u32,
    original: u32,
    data: &[u8],
) -> Written
    ensures { (result ≡ add_says out.old «data».now) × (out.new ≡ add_leaves out.old seconds fraction original «data».now) }
{
    writing::add(out, seconds, fraction, original, data)
}
