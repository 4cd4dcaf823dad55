// A line of cases: `CALL x4500.. GIVEN .. = WANTED ..`, where each part but the call may be left out. A function that reads a part takes what is left of the line, and answers what it read and what is left behind that.
#![tactic(auto)]

ghost use Rattle.std.specs.Prelude.{◌≡◌, ◌≢◌, ◌↔◌, ◌+◌, ◌-◌, ◌*◌, ◌<◌, ◌≤◌, ◌++◌, [], IsTrue, true, false, codes, length, take, replicate, slice_index, IfSome, MatchOption};

// A case: the word of its call, its bytes, the numbers given, and those wanted, with zeros behind them. Where something else than a number stands among the numbers given, or too many, those before it are given, and they are not whole; where it stands among those wanted, the last one is 4,294,967,295. A word of more than eight letters, which is that of no call, is cut behind nine.
// Other crates read all of it, and build cases of their own parts: so the numbers before something else are there for them too.
#[derive(Clone, Copy)]
pub struct Case<'a> {
    pub word: &'a [u8],
    pub wanted: [u32; 16],
    pub bytes: [u8; 128],
    pub byte_count: usize,
    pub given: [u32; 16],
    pub given_count: usize,
    pub whole: bool,
    pub ghost bytes_fit: { byte_count ≤ 128 },
    pub ghost given_fit: { given_count ≤ 16 },
}

// How many numbers were read, whether nothing else stands among them, and what is left of the line behind them.
#[derive(Clone, Copy)]
struct Part<'a> {
    count: usize,
    whole: bool,
    rest: &'a [u8],
}

impl<'a> Case<'a> {
    // Whether the line has a case: an empty line has none, nor has one whose word is '#' or has more than eight letters.
    pub fn is_there(&self) -> bool
        ensures { IsTrue result ↔ (self.now.word.now ≢ [] × self.now.word.now ≢ codes "#" × length self.now.word.now ≤ 8) }
    {
        !matches!(self.word, [] | b"#") && self.word.len() <= 8
    }

    // Its bytes.
    pub fn bytes(&self) -> &[u8]
        ensures { result.now ≡ take self.now.byte_count self.now.bytes }
    {
        &self.bytes[..self.byte_count]
    }

    // The numbers given, if they are whole.
    pub fn given(&self) -> Option<&[u32]>
        ensures { MatchOption result (self.now.whole ≡ false) (λ g. (self.now.whole ≡ true) × (g.now ≡ take self.now.given_count self.now.given)) }
    {
        if !self.whole {
            return None;
        }
        Some(&self.given[..self.given_count])
    }

    // The first number given, also where others behind it are spoilt; 0 where there is none.
    pub fn first_given(&self) -> u32
        ensures { result ≡ slice_index (take self.now.given_count self.now.given) 0 }
    {
        let given = &self.given[..self.given_count];
        given.first().copied().unwrap_or(0)
    }
}

// The case of a line.
pub fn read(line: &[u8]) -> Case<'_>
    ensures { length result.word.now ≤ length line.now }
{
    let mut bytes = [0; 128];
    let mut given = [0; 16];
    let mut wanted = [0; 16];
    let (word, rest) = first_word(line);
    let (byte_count, rest) = hex(rest, &mut bytes);
    let part = numbers(rest, &mut given);
    if !numbers(part.rest, &mut wanted).whole {
        wanted[15] = u32::MAX;
    }
    Case {
        word,
        wanted,
        bytes,
        byte_count,
        given,
        given_count: part.count,
        whole: part.whole,
    }
}

// Numbers with zeros behind them.
pub fn padded(numbers: &[u32]) -> [u32; 16]
    requires { length numbers.now ≤ 16 }
    ensures { result ≡ numbers.now ++ replicate (16 - length numbers.now) 0 }
{
    let mut all = [0; 16];
    all[..numbers.len()].copy_from_slice(numbers);
    all
}

// A line in two, the second from the first byte on that passes a test.
fn cut<F: Fn(u8) -> bool>(line: &[u8], ends: F) -> (&[u8], &[u8])
    requires { F.IsAlwaysCallable ends }
    ensures { length result.0.now + length result.1.now ≡ length line.now }
{
    let place = line.iter().position(|b| ends(*b));
    line.split_at(place.unwrap_or(line.len()))
}

// The first word, up to a space, without the zero bytes before it, or its first nine letters.
fn first_word(line: &[u8]) -> (&[u8], &[u8])
    ensures { length result.0.now + length result.1.now ≤ length line.now }
{
    let (_, line) = cut(line, |b| b != 0);
    let (word, _) = cut(&line[..line.len().min(9)], |b| b == b' ');
    line.split_at(word.len())
}

// The value of a hexadecimal digit. Of letters only a to f are digits, and not A to F.
fn digit(b: u8) -> Option<u8>
    ensures { IfSome result (λ d. d < 16) }
{
    match b {
        b'0'..=b'9' => Some(b - b'0'),
        b'a'..=b'f' => Some(b - b'a' + 10),
        _ => None,
    }
}

// Reads the bytes behind ' x', two digits each, up to what is no such pair; none where that does not stand there. Answers how many they are.
fn hex<'a>(line: &'a [u8], into: &mut [u8; 128]) -> (usize, &'a [u8])
    ensures { (result.0 ≤ 128) × (length result.1.now ≤ length line.now) }
{
    let Some(digits) = line.strip_prefix(b" x") else {
        return (0, line);
    };
    let (pairs, _) = digits.as_chunks::<2>();
    let mut count = 0;
    for [high, low] in pairs {
        let (Some(high), Some(low)) = (digit(*high), digit(*low)) else {
            break;
        };
        if 127 < count {
            break;
        }
        into[count] = high * 16 + low;
        count += 1;
    }
    let (_, rest) = digits.split_at(2 * count);
    (count, rest)
}

// Reads the numbers up to '=' or the line's end, with spaces and dashes between them.
fn numbers<'a>(line: &'a [u8], into: &mut [u32; 16]) -> Part<'a>
    ensures { (result.count ≤ 16) × (length result.rest.now ≤ length line.now) }
{
    let mut count = 0;
    let mut rest = line;
    while let [b, behind @ ..] = rest {
        match b {
            b'=' => {
                return Part {
                    count,
                    whole: true,
                    rest: behind,
                };
            }
            b' ' | b'-' => rest = behind,
            _ => {
                let Some((value, behind)) = number(rest) else {
                    return spoilt(count, rest);
                };
                if 15 < count {
                    return spoilt(count, rest);
                }
                into[count] = value;
                count += 1;
                rest = behind;
            }
        }
    }
    Part {
        count,
        whole: true,
        rest,
    }
}

// So many numbers, behind which something else stands, or one too many.
fn spoilt(count: usize, rest: &[u8]) -> Part<'_>
    ensures { (result.count ≡ count) × (result.rest.now ≡ rest.now) }
{
    Part {
        count,
        whole: false,
        rest,
    }
}

// The number that a line begins with: decimal digits, or an address as such numbers with dots between them. What stands behind a number of more than 32 bits is not looked at.
fn number(line: &[u8]) -> Option<(u32, &[u8])>
    ensures { IfSome result (λ n. length n.1.now < length line.now) }
{
    let [first @ b'0'..=b'9', behind @ ..] = line else {
        return None;
    };
    let mut before = 0u64;
    let mut part = u64::from(first - b'0');
    let mut length = 0;
    for b in behind {
        match b {
            b'0'..=b'9' => part = part * 10 + u64::from(b - b'0'),
            b'.' => {
                before = (before + part) * 256;
                part = 0;
            }
            _ => break,
        }
        if u64::from(u32::MAX) < before + part {
            return None;
        }
        length += 1;
    }
    let (_, rest) = behind.split_at(length);
    let value = u32::try_from(before + part).ok()?;
    Some((value, rest))
}
