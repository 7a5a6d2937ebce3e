// A record's bytes, made of the numbers of a line.
#![tactic(auto)]

pub mod names;

ghost use Rattle.std.specs.Prelude.{◌≡◌, ◌≤◌, length};
ghost use Rattle.samples_records.specs.Records as records;
ghost use Rattle.samples_records.specs.Records.{numbers_at, record_of, put_numbers, put_record};

use names::Named;

// How many bytes a record has, its head included, and the place after its last number.
#[derive(Clone, Copy)]
pub struct Record {
    pub length: usize,
    pub end: usize,
}

// What stands there is no record.
#[derive(Clone, Copy, Debug)]
pub struct Malformed;

// The numbers from a place on, each in four bytes after the head, as many as there are and fit.
fn put_fields(line: &[u8], at: usize, bytes: &mut [u8]) -> Record
    requires { length bytes.old ≡ 64 }
    ensures { (result ≡ record_of (numbers_at 15 line.now at)) × (result.length ≤ 64)
        × (bytes.new ≡ put_numbers 4 (numbers_at 15 line.now at).values bytes.old) }
{
    let mut end = at;
    for i in 1..16 {
        let start = samples_text::skip_spaces(line, end);
        let Some((v, after)) = samples_text::number_at(line, start) else {
            return Record { length: 4 * i, end };
        };
        number_words::put_at(bytes, 4 * i, v);
        end = after;
    }
    Record { length: 64, end }
}

// The head is the length and the kind, two bytes each.
fn put_record(line: &[u8], at: usize, kind: u32, bytes: &mut [u8]) -> Record
    requires { (length bytes.old ≡ 64) × (kind ≤ 65535) }
    ensures { (result ≡ record_of (numbers_at 15 line.now at))
        × (bytes.new ≡ put_record kind (numbers_at 15 line.now at).values bytes.old) }
{
    let record = put_fields(line, at, bytes);
    number_words::put_at(bytes, 0, record.length as u32 + 65536 * kind);
    record
}

// The record of a kind whose fields are the numbers from a place on, 15 at most; every later byte stays.
pub fn put(line: &[u8], at: usize, kind: u32, bytes: &mut [u8; 64]) -> Record
    requires { kind ≤ 65535 }
    ensures { (result ≡ record_of (numbers_at 15 line.now at))
        × (bytes.new ≡ put_record kind (numbers_at 15 line.now at).values bytes.old) }
{
    put_record(line, at, kind, bytes)
}

// The record of the call whose name stands at a place, where its numbers end the line. Where no name stands there it is of kind 0, which no
// decoder takes.
pub fn call_at(line: &[u8], at: usize, bytes: &mut [u8; 64]) -> Option<Record>
    ensures { (result ≡ records.call_at line.now at)
        × (bytes.new ≡ records.call_bytes line.now at bytes.old) }
{
    let name = names::name_at(line, at).unwrap_or(Named { kind: 0, end: at });
    let record = put(line, name.end, name.kind, bytes);
    if samples_text::at_end(line, record.end) {
        Some(record)
    } else {
        None
    }
}

// The record that begins at a place, after spaces and semicolons: its kind, then its fields. None at the line's end.
pub fn item_at(line: &[u8], at: usize, bytes: &mut [u8; 64]) -> Result<Option<Record>, Malformed>
    ensures { (result ≡ records.item_at line.now at)
        × (bytes.new ≡ records.item_bytes line.now at bytes.old) }
{
    let start = samples_text::skip_gaps(line, at);
    if line.len() <= start {
        return Ok(None);
    }
    let Some((kind, place)) = samples_text::number_at(line, start) else {
        return Err(Malformed);
    };
    if 65535 < kind {
        return Err(Malformed);
    }
    let record = put(line, place, kind, bytes);
    if samples_text::at_gap(line, record.end) {
        Ok(Some(record))
    } else {
        Err(Malformed)
    }
}
