// The kind and the length of each record of a calls file.
#![tactic(auto)]

ghost use Rattle.std.specs.Prelude.{◌≡◌};
ghost use Rattle.monitor_base.specs.Answers.{call_of, query_of, update_of};
ghost use Rattle.calls_format.specs.Decoded as kinds;
ghost use Rattle.calls_format.specs.Decoded.{requested, begin_kind, call_kind, kind_of, length_of};
ghost use Rattle.calls_kinds.specs.Kind.{number_of, Decodes};

use calls_format::Request;
use monitor_base::{Call, Query, Update};
use plain::Beginning;

// The kinds of records.
#[derive(Clone, Copy, PartialEq, Eq)]
pub enum Kind {
    NewMap,
    Record,
    Free,
    Written,
    Ask,
    Valid,
    Initialised,
    Next,
    Audit,
    RecordWritten,
    RecordLiteral,
    ValidRead,
    Remove,
}

// A number that no kind of record has.
#[derive(Clone, Copy, PartialEq, Eq)]
pub struct UnknownKind(pub u32);

impl TryFrom<u32> for Kind {
    type Error = UnknownKind;

    ghost try_from_gives = { Decodes };

    fn try_from(number: u32) -> Result<Self, UnknownKind> {
        match number {
            1 => Ok(Kind::NewMap),
            2 => Ok(Kind::Record),
            3 => Ok(Kind::Free),
            4 => Ok(Kind::Written),
            5 => Ok(Kind::Ask),
            6 => Ok(Kind::Valid),
            7 => Ok(Kind::Initialised),
            8 => Ok(Kind::Next),
            9 => Ok(Kind::Audit),
            10 => Ok(Kind::RecordWritten),
            14 => Ok(Kind::RecordLiteral),
            15 => Ok(Kind::ValidRead),
            16 => Ok(Kind::Remove),
            _ => Err(UnknownKind(number)),
        }
    }
}

impl Kind {
    // How many bytes a record of this kind has.
    pub fn length(self) -> usize
        ensures { result ≡ length_of (number_of self) }
    {
        match self {
            Kind::NewMap => 20,
            Kind::Valid | Kind::ValidRead => 16,
            Kind::Record | Kind::RecordWritten | Kind::RecordLiteral => 12,
            Kind::Written | Kind::Initialised => 12,
            Kind::Free | Kind::Remove | Kind::Ask | Kind::Next => 8,
            Kind::Audit => 4,
        }
    }
}

// Whether the calls of a kind write.
pub fn writes(kind: u32) -> bool
    ensures { result ≡ kinds.writes kind }
{
    (kind == 2) | (kind == 3) | (kind == 4) | (kind == 10) | (kind == 14) | (kind == 16)
}

fn query_kind(query: Query) -> u32
    ensures { result ≡ call_kind (query_of query) }
{
    match query {
        Query::Ask(_) => 5,
        Query::Valid(write, _, _, _) => {
            if write {
                return 6;
            }
            15
        }
        Query::Initialised(_, _) => 7,
        Query::Next(_) => 8,
        Query::Audit => 9,
    }
}

// The kind that records a block.
fn begin_kind(how: Beginning) -> u32
    ensures { result ≡ begin_kind how }
{
    match how {
        Beginning::Unwritten => 2,
        Beginning::Written => 10,
        Beginning::Literal => 14,
    }
}

// 0 for clear, which has no kind of its own.
fn update_kind(update: Update) -> u32
    ensures { result ≡ call_kind (update_of update) }
{
    match update {
        Update::Clear => 0,
        Update::Begin(how, _, _) => begin_kind(how),
        Update::Free(_) => 3,
        Update::Remove(_) => 16,
        Update::Written(_, _) => 4,
    }
}

fn call_kind(call: Call) -> u32
    ensures { result ≡ call_kind (call_of call) }
{
    match call {
        Call::Query(query) => query_kind(query),
        Call::Update(update) => update_kind(update),
    }
}

// The kind of a request's record.
pub fn kind_of(r: Request) -> u32
    ensures { result ≡ kind_of (requested r) }
{
    match r {
        Request::NewMap(_) => 1,
        Request::Call(call) => call_kind(call),
    }
}

// How many bytes a request's record has; 0 for clear, which has none.
pub fn length_of(r: Request) -> usize
    ensures { result ≡ length_of (kind_of (requested r)) }
{
    match Kind::try_from(kind_of(r)) {
        Ok(kind) => kind.length(),
        Err(_) => 0,
    }
}
