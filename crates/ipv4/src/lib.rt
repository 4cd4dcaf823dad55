// The two kinds of store of the IPv4 gateway, and a rule as its caller has it: six low and six high ends by field. Here alone the code has the numbers of the layout and the tops; the six fields stand by name also where a packet's values are taken one by one.
#![tactic(auto)]

ghost use Rattle.std.specs.Prelude.{◌≡◌, ◌≤◌, suc, length};
ghost use Rattle.model.specs.Table.{packet_right};
ghost use Rattle.model.specs.Ipv4.{ipv4, large, is_large, kind_in};
ghost use Rattle.header.specs.Header.{values_in};
ghost use Rattle.rows.specs.Rows.{Scratch};
ghost use Rattle.table.specs.Rows.{kind_of, rule_in};
ghost use Rattle.ipv4.specs.Rule.{given};

use header::Packet;
use rows::Rows;
use table::Shape;

// The top of each field.
pub static TOPS: [u32; 6] = [4294967295, 4294967295, 255, 65535, 65535, 1];

// Scratch for the sets of the rules of a small store, and for their ends: for each field, and once more, a number for each of 65 rows.
pub const SMALL: usize = 455;

// The same for a large store, of 513 rows.
pub const LARGE: usize = 3591;

// The rows of a small store, and of a large one: as many places has a set of all rules with the default.
pub const SMALL_ROWS: usize = 65;

pub const LARGE_ROWS: usize = 513;

// Whether the words, of a store or of an image, name the kind of large stores.
pub fn is_large(words: &[u32]) -> bool
    ensures { result ≡ is_large words.now }
{
    if words.len() < 3 {
        return false;
    }
    words[2] == 4
}

// The shape of large stores, or of small ones.
pub fn shape(large: bool) -> Shape<'static>
    ensures { kind_of result ≡ ipv4 large }
{
    if large {
        return Shape {
            tops: &TOPS,
            ports: 3,
            most: 512,
            width: 15,
            head: 495,
            mark: 4,
        };
    }
    Shape {
        tops: &TOPS,
        ports: 3,
        most: 64,
        width: 15,
        head: 47,
        mark: 0,
    }
}

// Does something with the shape of large stores, or of small ones, and with so many numbers of scratch for sets and as many for ends, all 0.
fn with<const N: usize, R, F: FnOnce(&Shape, &mut [u16], &mut [u32]) -> R>(large: bool, run: F) -> R
    requires small { N ≤ 65536 }
    requires called { (shape : _) (sets : _) (ends : _) → kind_of shape.now ≡ ipv4 large → length sets.now ≡ N → length ends.now ≡ N → F.pre run shape sets ends }
    ensures { (shape : _) × (sets : _) × (ends : _) × (left_sets : _) × (left_ends : _) × (kind_of shape.now ≡ ipv4 large) × F.post run shape sets ends result left_sets left_ends }
{
    let mut sets = [0u16; N];
    let mut ends = [0u32; N];
    run(&shape(large), &mut sets, &mut ends)
}

// Does something with the shape of the kind that the words name, and with scratch for a store of that kind. Each kind has scratch of its own size: setting it to zeros takes the time that the kind needs. It stands in a function of its own, so that the compiler gives both one place in the call's frame, with room for the larger one.
pub fn with_scratch<R, F: FnOnce(&Shape, &mut [u16], &mut [u32]) -> R>(words: &[u32], run: F) -> R
    requires { (shape : _) (sets : _) (ends : _) → kind_of shape.now ≡ kind_in words.now → Scratch (suc shape.now.most) (length shape.now.tops.now) sets.now ends.now → F.pre run shape sets ends }
    ensures { (shape : _) × (sets : _) × (ends : _) × (left_sets : _) × (left_ends : _) × (kind_of shape.now ≡ kind_in words.now) × F.post run shape sets ends result left_sets left_ends }
{
    if is_large(words) {
        return with::<LARGE, R, F>(true, run);
    }
    with::<SMALL, R, F>(false, run)
}

// Whether none of a packet's values is above its top. The two addresses have the whole range of a word.
pub fn right(packet: Packet) -> bool
    ensures { result ≡ packet_right large (values_in packet) }
{
    packet.protocol <= 255
        && packet.destination_port <= 65535
        && packet.source_port <= 65535
        && packet.portless <= 1
}

// A rule: six low ends and six high ends besides its number and its action.
#[repr(C)]
#[derive(Clone, Copy)]
pub struct Rule {
    pub number: u32,
    pub action: u32,
    pub low: [u32; 6],
    pub high: [u32; 6],
}

// The words of a rule's row.
pub fn row_of(rule: Rule) -> [u32; 14]
    ensures { (length result ≡ 14) × (rule_in 6 result 0 ≡ given rule) }
{
    let low = rule.low;
    let high = rule.high;
    [
        rule.number,
        rule.action,
        low[0],
        high[0],
        low[1],
        high[1],
        low[2],
        high[2],
        low[3],
        high[3],
        low[4],
        high[4],
        low[5],
        high[5],
    ]
}

// The rule whose row begins at a word of the rows.
pub fn rule_at(rows: &[u32], place: u32) -> Rule
    ensures { given result ≡ rule_in 6 rows.now place }
{
    let table = Rows::of(rows);
    Rule {
        number: table.number(place),
        action: table.action(place),
        low: [
            table.low(place, 0),
            table.low(place, 1),
            table.low(place, 2),
            table.low(place, 3),
            table.low(place, 4),
            table.low(place, 5),
        ],
        high: [
            table.high(place, 0),
            table.high(place, 1),
            table.high(place, 2),
            table.high(place, 3),
            table.high(place, 4),
            table.high(place, 5),
        ],
    }
}
