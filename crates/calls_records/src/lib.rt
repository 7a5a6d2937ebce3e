// The records of a calls file, taken apart.
#![tactic(auto)]

ghost use Rattle.std.specs.Prelude.{◌≡◌, ◌+◌, ◌*◌, ◌≤◌, length};
ghost use Rattle.number.specs.Little.{word};
ghost use Rattle.number.specs.Parts.{at};
ghost use Rattle.monitor_base.specs.Answers.{query_of, update_of};
ghost use Rattle.calls_format.specs.Records as records;
ghost use Rattle.plain.specs.Call as plain;
ghost use Rattle.calls_format.specs.Decoded.{requested, decoded_of, length_of};
ghost use Rattle.calls_kinds.specs.Kind.{number_of};

use calls_format::Request;
use calls_kinds::Kind;
use map::{Address, Map};
use monitor_base::{Call, Query, Update};
use plain::Beginning;

// The two-byte number at a place of a slice.
#[tactic(auto, unfolding(number::specs::Little::word))]
pub fn short_at(s: &[u8], p: usize) -> u32
    requires { p + 2 ≤ length s.now }
    ensures { result ≡ word (at s.now) p 2 }
{
    u32::from(s[p]) + 256 * u32::from(s[p + 1])
}

// Field i of a record.
pub fn field(s: &[u8], i: usize) -> u32
    requires { 8 + 4 * i ≤ length s.now }
    ensures { result ≡ records.field s.now i }
{
    number_words::number_at(s, 4 + 4 * i)
}

// The map that a record of kind 1 has.
fn map_of(s: &[u8]) -> Map
    requires { 20 ≤ length s.now }
    ensures { records.new_map result ≡ records.request_of 1 s.now }
{
    Map {
        heap_start: field(s, 0),
        heap_size: field(s, 1),
        stack_start: field(s, 2),
        stack_size: field(s, 3),
    }
}

// The address in field i of a record.
fn address(s: &[u8], i: usize) -> Address
    requires { 8 + 4 * i ≤ length s.now }
    ensures { result.0 ≡ records.field s.now i }
{
    Address(field(s, i))
}

fn query(asked: Query) -> Request
    ensures { requested result ≡ records.call (query_of asked) }
{
    Request::Call(Call::Query(asked))
}

fn update(asked: Update) -> Request
    ensures { requested result ≡ records.call (update_of asked) }
{
    Request::Call(Call::Update(asked))
}

// A block is recorded, as it begins.
fn begin(s: &[u8], how: Beginning) -> Request
    requires { 12 ≤ length s.now }
    ensures { requested result ≡ records.call (plain.begin how (records.field s.now 0) (records.field s.now 1)) }
{
    update(Update::Begin(how, address(s, 0), field(s, 1)))
}

// Whether bytes may be read, and where the flag is set written.
fn valid(s: &[u8], write: bool) -> Request
    requires { 16 ≤ length s.now }
    ensures { requested result ≡ records.call (plain.valid write (records.field s.now 0) (records.field s.now 1) (records.field s.now 2)) }
{
    let n = field(s, 1);
    query(Query::Valid(write, address(s, 0), n, address(s, 2)))
}

// What a record of a kind asks for.
#[tactic(auto, unfolding(calls_format::specs::Records::fields_of, calls_format::specs::Records::request_of))]
fn request_of(s: &[u8], kind: Kind) -> Request
    requires { length_of (number_of kind) ≤ length s.now }
    ensures { requested result ≡ records.request_of (number_of kind) s.now }
{
    match kind {
        Kind::NewMap => Request::NewMap(map_of(s)),
        Kind::Record => begin(s, Beginning::Unwritten),
        Kind::RecordWritten => begin(s, Beginning::Written),
        Kind::RecordLiteral => begin(s, Beginning::Literal),
        Kind::Free => update(Update::Free(address(s, 0))),
        Kind::Remove => update(Update::Remove(address(s, 0))),
        Kind::Written => update(Update::Written(address(s, 0), field(s, 1))),
        Kind::Ask => query(Query::Ask(address(s, 0))),
        Kind::Valid => valid(s, true),
        Kind::ValidRead => valid(s, false),
        Kind::Initialised => query(Query::Initialised(address(s, 0), field(s, 1))),
        Kind::Next => query(Query::Next(address(s, 0))),
        Kind::Audit => query(Query::Audit),
    }
}

// The first record of the bytes that are left.
pub fn decode(bytes: &[u8]) -> Option<Request>
    ensures { decoded_of result ≡ records.decode bytes.now }
{
    if bytes.len() < 4 {
        return None;
    }
    let Ok(kind) = Kind::try_from(short_at(bytes, 2)) else {
        return None;
    };
    let length = kind.length();
    if short_at(bytes, 0) as usize != length {
        return None;
    }
    if bytes.len() < length {
        return None;
    }
    Some(request_of(bytes, kind))
}
