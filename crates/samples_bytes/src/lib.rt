// The shadow bytes that a sample gives: `heap@8=1,0 pri@0=4`.
#![tactic(auto)]

pub mod changes;

ghost use Rattle.std.specs.Prelude.{◌≡◌, ◌-◌, length};
ghost use Rattle.samples_bytes.specs.Given.{stored, reached, given, store_bytes, store_at, store_named, store_any, store_all};

// Bytes with commas between, stored from a position on.
fn store(line: &[u8], at: usize, shadow: &mut [u8], position: usize) -> Option<usize>
    ensures { stored result shadow.new
        ≡ store_bytes (length shadow.old - position) line.now at position shadow.old }
{
    let mut place = at;
    for p in position..shadow.len() {
        let (v, end) = samples_text::number_at(line, place)?;
        shadow[p] = u8::try_from(v).ok()?;
        let Some(next) = samples_text::after(line, end, b',') else {
            return Some(end);
        };
        place = next;
    }
    None
}

// A position, an equals sign, and the bytes that stand there.
fn store_at(line: &[u8], at: usize, shadow: &mut [u8]) -> Option<usize>
    ensures { stored result shadow.new ≡ store_at line.now at shadow.old }
{
    let (position, end) = samples_text::number_at(line, at)?;
    let start = samples_text::after(line, end, b'=')?;
    store(line, start, shadow, position as usize)
}

// Bytes of the shadow of this name, and the place after them.
pub fn store_named(line: &[u8], at: usize, name: &[u8], shadow: &mut [u8]) -> Option<usize>
    ensures { stored result shadow.new ≡ store_named line.now at name.now shadow.old }
{
    let place = samples_text::after_word(line, at, name)?;
    store_at(line, place, shadow)
}

// Bytes of any shadow: no more than one of the names stands there.
fn store_any(
    line: &[u8],
    at: usize,
    heap: &mut [u8],
    primary: &mut [u8],
    secondary: &mut [u8],
) -> Option<usize>
    ensures { reached result heap.new primary.new secondary.new
        ≡ store_any line.now at heap.old primary.old secondary.old }
{
    let in_heap = store_named(line, at, b"heap@", heap);
    let in_primary = store_named(line, at, b"pri@", primary);
    let in_secondary = store_named(line, at, b"sec@", secondary);
    in_heap.or(in_primary).or(in_secondary)
}

// All given bytes, each group after a space, and the place after the colon that ends them.
pub fn store_all(
    line: &[u8],
    at: usize,
    heap: &mut [u8; 64],
    primary: &mut [u8; 32],
    secondary: &mut [u8; 32],
) -> Option<usize>
    ensures { given result heap.new primary.new secondary.new
        ≡ store_all 4096 line.now at heap.old primary.old secondary.old }
{
    let mut place = at;
    for _ in 0..4096u32 {
        let start = samples_text::skip_spaces(line, place);
        if let Some(call) = samples_text::after(line, start, b':') {
            return Some(call);
        }
        if start == place {
            return None;
        }
        place = store_any(line, start, heap, primary, secondary)?;
    }
    None
}
