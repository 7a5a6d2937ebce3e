// The kind and the length of each record of the calls program with origins.
#![tactic(auto)]

ghost use Rattle.std.specs.Prelude.{◌≡◌};
ghost use Rattle.origins_base.specs.Answers.{pointer_of};
ghost use Rattle.calls_origins_format.specs.Records.{form_kind, kind_of, length_of};
ghost use Rattle.calls_origins_format.specs.Decoded.{requested};
ghost use Rattle.calls_origins_kinds.specs.Kind.{Decodes};

use calls_origins_format::Request;
use origins_base::Pointer;

// The kinds of records that are of pointers.
#[derive(Clone, Copy, PartialEq, Eq)]
pub enum PointerKind {
    Point,
    Copy,
    Live,
}

// A number that no such kind has.
#[derive(Clone, Copy, PartialEq, Eq)]
pub struct OtherKind(pub u32);

impl TryFrom<u32> for PointerKind {
    type Error = OtherKind;

    ghost try_from_gives = { Decodes };

    fn try_from(number: u32) -> Result<Self, OtherKind> {
        match number {
            11 => Ok(PointerKind::Point),
            12 => Ok(PointerKind::Copy),
            13 => Ok(PointerKind::Live),
            _ => Err(OtherKind(number)),
        }
    }
}

fn pointer_kind(pointer: Pointer) -> u32
    ensures { result ≡ form_kind (pointer_of pointer) }
{
    match pointer {
        Pointer::Point(_, _) => 11,
        Pointer::Copy(_, _) => 12,
        Pointer::Live(_, _) => 13,
    }
}

// The kind of a request's record.
pub fn kind_of(r: Request) -> u32
    ensures { result ≡ kind_of (requested r) }
{
    match r {
        Request::Plain(plain) => calls_kinds::kind_of(plain),
        Request::Pointer(pointer) => pointer_kind(pointer),
    }
}

// How many bytes a request's record has.
pub fn length_of(r: Request) -> usize
    ensures { result ≡ length_of (kind_of (requested r)) }
{
    match r {
        Request::Plain(plain) => calls_kinds::length_of(plain),
        Request::Pointer(_) => 12,
    }
}
