// Little-endian numbers in a slice, read and written.
#![tactic(auto)]

ghost use Rattle.std.specs.Prelude.{◌≡◌, ◌+◌, ◌-◌, ◌≤◌, length};
ghost use Rattle.number.specs.Little.{le, bytes_of, byte_of, word};
ghost use Rattle.number.specs.Parts.{at, over};

// The number that four bytes hold.
pub fn number(bytes: &[u8]) -> u32
    requires { length bytes.now ≡ 4 }
    ensures { result ≡ le bytes.now }
{
    u32::from_le_bytes([bytes[0], bytes[1], bytes[2], bytes[3]])
}

// The number at a place of a slice.
pub fn number_at(s: &[u8], p: usize) -> u32
    requires { p + 4 ≤ length s.now }
    ensures { result ≡ word (at s.now) p 4 }
{
    number(&s[p..p + 4])
}

// The number that eight bytes hold.
fn eight(bytes: &[u8]) -> u64
    requires { length bytes.now ≡ 8 }
    ensures { result ≡ le bytes.now }
{
    u64::from_le_bytes([
        bytes[0], bytes[1], bytes[2], bytes[3], bytes[4], bytes[5], bytes[6], bytes[7],
    ])
}

// The number in the eight bytes at a place of a slice.
pub fn eight_at(s: &[u8], p: usize) -> u64
    requires { p + 8 ≤ length s.now }
    ensures { result ≡ word (at s.now) p 8 }
{
    eight(&s[p..p + 8])
}

// Writes a number into four bytes.
pub fn put_number(bytes: &mut [u8], v: u32)
    requires { length bytes.old ≡ 4 }
    ensures { bytes.new ≡ bytes_of 4 v }
{
    bytes.copy_from_slice(&u32::to_le_bytes(v));
}

// Writes a number at a place of a slice; every other byte stays.
pub fn put_at(s: &mut [u8], p: usize, v: u32)
    requires { p + 4 ≤ length s.old }
    ensures { s.new ≡ over p 4 (λ q. byte_of v (q - p)) s.old }
{
    put_number(&mut s[p..p + 4], v);
}

// Writes a number into eight bytes.
fn put_eight(bytes: &mut [u8], v: u64)
    requires { length bytes.old ≡ 8 }
    ensures { bytes.new ≡ bytes_of 8 v }
{
    bytes.copy_from_slice(&u64::to_le_bytes(v));
}

// Writes a number into the eight bytes at a place of a slice; every other byte stays.
pub fn put_eight_at(s: &mut [u8], p: usize, v: u64)
    requires { p + 8 ≤ length s.old }
    ensures { s.new ≡ over p 8 (λ q. byte_of v (q - p)) s.old }
{
    put_eight(&mut s[p..p + 8], v);
}
