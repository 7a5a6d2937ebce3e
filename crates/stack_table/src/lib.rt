// The codes of short blocks: how many there are, and what one tells. The commonest blocks, of four and of eight bytes, as numbers.
#![tactic(auto)]

ghost use Rattle.std.specs.Prelude.{◌≡◌, ◌+◌, ◌-◌, ◌*◌, ◌/◌, ◌≤◌, ◌<◌};
ghost use Rattle.stack_layout.specs.Code.{short_length, short_offset};

// Bit c is set where code c is of a block's first byte.
const FIRST: u64 = 0x20410896;

// Bit c is set where code c is of a block's last byte.
const LAST: u64 = 0x101020844A;

// The written bits of four primary bytes as one number, and of eight.
pub const BITS_4: u32 = 0x01010101;

pub const BITS_8: u64 = 0x0101010101010101;

// The primary bytes of an unwritten block of four bytes as one number, and of eight.
pub const BLOCK_4: u32 = 0x2824201c;

pub const BLOCK_8: u64 = 0x908c8884807c7874;

// The offset of a code: how far below it the first code of its length lies.
pub fn short_offset(code: u8) -> u32
    requires { (1 ≤ code) × (code < 37) }
    ensures { result ≡ short_offset code }
{
    (FIRST << (63 - code)).leading_zeros()
}

// How many bytes of its block come after that of a code.
pub fn short_after(code: u8) -> u32
    requires { (1 ≤ code) × (code < 37) }
    ensures { short_offset code + result + 1 ≡ short_length code }
{
    (LAST >> code).trailing_zeros()
}

// How many codes the blocks shorter than a short one have.
pub fn codes_below(len: u32) -> u32
    requires { (1 ≤ len) × (len ≤ 8) }
    ensures { (result ≡ len * (len - 1) / 2) × (result ≤ 28) }
{
    len * (len - 1) / 2
}
