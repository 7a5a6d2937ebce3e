// The records of the calls program with origins, taken apart.
#![tactic(auto)]

ghost use Rattle.std.specs.Prelude.{◌≡◌, ◌≤◌, length};
ghost use Rattle.origins_base.specs.Answers.{pointer_of};
ghost use Rattle.calls_format.specs.Records as plain;
ghost use Rattle.calls_origins_format.specs.Records as records;
ghost use Rattle.calls_origins_format.specs.Records.{own_call, decode_plain};
ghost use Rattle.calls_origins_format.specs.Decoded.{decoded_of};
ghost use Rattle.calls_origins_kinds.specs.Kind.{number_of};

use calls_origins_format::Request;
use calls_origins_kinds::PointerKind;
use calls_records::{field, short_at};
use map::Address;
use origins_base::Pointer;

// What a record of a pointer asks for.
fn pointer_of(s: &[u8], kind: PointerKind) -> Pointer
    requires { 12 ≤ length s.now }
    ensures { pointer_of result ≡ own_call (number_of kind) (plain.field s.now 0) (plain.field s.now 1) }
{
    let first = Address(field(s, 0));
    let second = Address(field(s, 1));
    match kind {
        PointerKind::Point => Pointer::Point(first, second),
        PointerKind::Copy => Pointer::Copy(first, second),
        PointerKind::Live => Pointer::Live(first, second),
    }
}

// What the plain program makes of the bytes.
fn plain_of(bytes: &[u8]) -> Option<Request>
    ensures { decoded_of result ≡ decode_plain (plain.decode bytes.now) }
{
    calls_records::decode(bytes).map(Request::Plain)
}

// The first record of the bytes that are left. A record of kinds 11 to 13 has 12 bytes.
pub fn decode(bytes: &[u8]) -> Option<Request>
    ensures { decoded_of result ≡ records.decode bytes.now }
{
    if bytes.len() < 12 {
        return plain_of(bytes);
    }
    let Ok(kind) = PointerKind::try_from(short_at(bytes, 2)) else {
        return plain_of(bytes);
    };
    if short_at(bytes, 0) != 12 {
        return None;
    }
    Some(Request::Pointer(pointer_of(bytes, kind)))
}
