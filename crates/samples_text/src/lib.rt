// Text taken apart: each function takes a line and a place in it, and tells the place after what it found.
#![tactic(auto)]

ghost use Rattle.std.specs.Prelude.{◌≡◌, cond, ◌-◌, drop};
ghost use Rattle.samples_text.specs.Text as text;
ghost use Rattle.samples_text.specs.Text.{is_digit};

// What stands from a place on: nothing past the end.
fn rest(line: &[u8], at: usize) -> &[u8]
    ensures { result.now ≡ drop at line.now }
{
    &line[at.min(line.len())..]
}

// Past spaces and another byte.
fn skip(line: &[u8], at: usize, other: u8) -> usize
    ensures { result ≡ text.skip_from other line.now at }
{
    let text = rest(line, at);
    let other_byte = text.iter().position(|b| *b != b' ' && *b != other);
    at + other_byte.unwrap_or(text.len())
}

pub fn skip_spaces(line: &[u8], at: usize) -> usize
    ensures { result ≡ text.skip_spaces line.now at }
{
    skip(line, at, b' ')
}

// Past what stands between records.
pub fn skip_gaps(line: &[u8], at: usize) -> usize
    ensures { result ≡ text.skip_from 59 line.now at }
{
    skip(line, at, b';')
}

// Whether the line ends there, or this byte stands there.
fn ends_by(line: &[u8], at: usize, byte: u8) -> bool
    ensures { result ≡ text.ends_by byte line.now at }
{
    line.len() <= at || line[at] == byte
}

// Whether a record ends there.
pub fn at_gap(line: &[u8], at: usize) -> bool
    ensures { result ≡ text.gap_at line.now at }
{
    ends_by(line, skip_spaces(line, at), b';')
}

// Whether nothing but spaces follows.
pub fn at_end(line: &[u8], at: usize) -> bool
    ensures { result ≡ text.end_at line.now at }
{
    line.len() <= skip_spaces(line, at)
}

// An empty line, or one that begins with a number sign.
pub fn remark(line: &[u8]) -> bool
    ensures { result ≡ text.is_remark line.now }
{
    ends_by(line, 0, b'#')
}

// The place after a byte, where it is the next one.
pub fn after(line: &[u8], at: usize, byte: u8) -> Option<usize>
    ensures { result ≡ text.after_byte line.now at byte }
{
    if at < line.len() && line[at] == byte {
        Some(at + 1)
    } else {
        None
    }
}

// The place after a word that stands there.
pub fn after_word(line: &[u8], at: usize, word: &[u8]) -> Option<usize>
    ensures { result ≡ text.after_word line.now at word.now }
{
    if rest(line, at).starts_with(word) {
        Some(at + word.len())
    } else {
        None
    }
}

// The same for a word that ends there: a space or the line's end follows.
pub fn after_name(line: &[u8], at: usize, name: &[u8]) -> Option<usize>
    ensures { result ≡ text.after_name line.now at name.now }
{
    let end = after_word(line, at, name)?;
    if ends_by(line, end, b' ') {
        Some(end)
    } else {
        None
    }
}

fn digit(byte: u8) -> Option<u64>
    ensures { result ≡ cond (is_digit byte) (Some (byte - 48)) None }
{
    match byte {
        b'0'..=b'9' => Some(u64::from(byte - b'0')),
        _ => None,
    }
}

fn taken(value: u64, start: usize, end: usize) -> Option<(u64, usize)>
    ensures { result ≡ text.between value start end }
{
    if start == end {
        None
    } else {
        Some((value, end))
    }
}

// A decimal number of 64 bits, and the place after its last digit.
pub fn long_at(line: &[u8], at: usize) -> Option<(u64, usize)>
    ensures { result ≡ text.long_at line.now at }
{
    let text = rest(line, at);
    let mut value: u64 = 0;
    for (n, byte) in text.iter().enumerate() {
        let Some(d) = digit(*byte) else {
            return taken(value, at, at + n);
        };
        value = value.checked_mul(10)?.checked_add(d)?;
    }
    taken(value, at, at + text.len())
}

// One of 32 bits.
pub fn number_at(line: &[u8], at: usize) -> Option<(u32, usize)>
    ensures { result ≡ text.number_at line.now at }
{
    let (value, end) = long_at(line, at)?;
    Some((u32::try_from(value).ok()?, end))
}
