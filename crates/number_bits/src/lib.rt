// The bits of a byte, and the bytes of a number.
#![tactic(auto)]

ghost use Rattle.std.specs.Prelude.{◌≡◌, ◌+◌, ◌^◌, ◌≤◌, ◌<◌, eqb};
ghost use Rattle.number.specs.Little.{byte_of, word};
ghost use Rattle.number.specs.Bits.{bit_of, with_bits, bits_set, ones_of};
ghost use Rattle.number.specs.Parts.{run_of, odd_bytes};

// Bit j of a byte.
pub fn bit(byte: u8, j: u32) -> u8
    requires { j < 8 }
    ensures { result ≡ bit_of byte j }
{
    (byte >> j) & 1
}

// The number whose n low bits are set and no other.
pub fn low_bits(n: u32) -> u32
    requires { n < 32 }
    ensures { result + 1 ≡ 2 ^ n }
{
    (1u32 << n) - 1
}

// Sets the n bits from bit j on, in the one byte that is lent.
pub fn set_bits(byte: &mut u8, j: u32, n: u32)
    requires { j + n ≤ 8 }
    ensures { byte.new ≡ with_bits byte.old j n }
{
    *byte |= (low_bits(n) << j) as u8;
}

// Whether the n bits from bit j on are set.
pub fn bits_set(byte: u8, j: u32, n: u32) -> bool
    requires { j + n ≤ 8 }
    ensures { result ≡ bits_set byte j n }
{
    let low = low_bits(n);
    (u32::from(byte) >> j) & low == low
}

// The ones of a byte.
pub fn ones(byte: u8) -> u32
    ensures { (result ≡ ones_of 8 byte) × (result ≤ 8) }
{
    byte.count_ones()
}

// The n low bytes of a number.
pub fn low(x: u64, n: u32) -> u64
    requires { (1 ≤ n) × (n ≤ 8) }
    ensures { result ≡ word (byte_of x) 0 n }
{
    x & (u64::MAX >> (64 - 8 * n))
}

// How many of the n low bytes of a number are odd. Modulo 255 a number is the sum of its bytes.
pub fn odds(x: u64, n: u32) -> u32
    requires { (1 ≤ n) × (n ≤ 8) }
    ensures { (result ≡ odd_bytes (byte_of x) 0 n) × (result ≤ n) }
{
    ((low(x, n) & 0x0101010101010101) % 255) as u32
}

// How many bytes of a number, from the lowest on, are zero.
pub fn zero_bytes(x: u64) -> u32
    ensures { (result ≡ run_of (λ j. eqb (byte_of x j) 0) 0 8) × (result ≤ 8) }
{
    x.trailing_zeros() / 8
}
