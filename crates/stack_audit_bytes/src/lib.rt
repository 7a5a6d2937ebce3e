// What each byte of a block has in the shadows.
#![tactic(auto)]

ghost use Rattle.std.specs.Prelude.{◌≡◌, ◌||◌, ◌+◌, ◌-◌, ◌*◌, ◌%◌, ◌<◌, ◌≤◌, eqb};
ghost use Rattle.number.specs.Little.{byte_of};
ghost use Rattle.stack_layout.specs.Code.{piece_of, code_of, low_bits, secondary_of, short_length};
ghost use Rattle.stack_audit_laws.specs.Runs.{first_byte};

// The offset of the piece that holds byte i of a long block.
pub fn piece_of(len: u32, i: u32) -> u32
    requires { (9 ≤ len) × (i < len) }
    ensures { (result ≡ piece_of len i) × (result ≤ i) × (i < result + 15) }
{
    let last = len / 8 - 1;
    8 * (i / 8).min(last)
}

// The length that a code of 1 to 36 tells. Tests, and no table: the walk goes on before they are settled.
pub fn short_length(code: u8) -> u32
    requires { (1 ≤ code) × (code ≤ 36) }
    ensures { result ≡ short_length code }
{
    if code <= 1 {
        return 1;
    }
    if code <= 3 {
        return 2;
    }
    if code <= 6 {
        return 3;
    }
    if code <= 10 {
        return 4;
    }
    if code <= 15 {
        return 5;
    }
    if code <= 21 {
        return 6;
    }
    if code <= 28 {
        return 7;
    }
    8
}

// The code of byte i of a block.
pub fn code_at(len: u32, i: u32) -> u8
    requires { i < len }
    ensures { (result ≡ code_of len i) × (result < 63) }
{
    if len <= 8 {
        return (stack_table::codes_below(len) + i + 1) as u8;
    }
    (48 + (i - piece_of(len, i))) as u8
}

// The low bits that a primary byte x must have: both in a literal, else its own written bit alone.
pub fn low_bits(x: u8, literal: bool) -> u8
    ensures { (result ≡ low_bits literal (literal || eqb (x % 2) 1)) × (result < 4) }
{
    if literal { 3 } else { x & 1 }
}

// Byte j of a number: a shift, since an array of its bytes, with j an index, goes by way of memory.
pub fn byte_of(v: u32, j: u32) -> u8
    requires { j < 4 }
    ensures { result ≡ byte_of v j }
{
    ((v >> (8 * j)) % 256) as u8
}

// The secondary byte at byte i of a block.
pub fn secondary_at(len: u32, i: u32) -> u8
    requires { i < len }
    ensures { result ≡ secondary_of len i }
{
    if len <= 8 {
        return 0;
    }
    let o = piece_of(len, i);
    let j = i - o;
    if j < 4 {
        return byte_of(len, j);
    }
    if j < 8 {
        return byte_of(o, j - 4);
    }
    0
}

// The byte of a code, in a literal or in another block where it is not written.
pub fn first_byte(code: u32, literal: bool) -> u64
    requires { code ≤ 56 }
    ensures { (result ≡ first_byte code literal) × (result ≤ 227) }
{
    let byte = 4 * u64::from(code);
    if literal { byte + 3 } else { byte }
}

// The eight primary bytes that climb by 4 from the first one.
pub fn climbing(first: u64) -> u64
    requires { first ≤ 227 }
    ensures { result ≡ 2024390091656922112 + 72340172838076673 * first }
{
    0x1C1814100C080400 + 0x0101010101010101 * first
}
