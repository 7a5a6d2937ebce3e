// Samples of the plain form: a call on given shadow bytes, or a run of the calls program.
#![tactic(auto)]

pub mod calls;
pub mod runs;

use calls_format::Request;
use samples_records::Record;

// What a record, which is the first bytes, says to the decoder of the calls program.
fn decode(bytes: &[u8; 64], record: Record) -> Option<Request> {
    calls_records::decode(bytes.get(..record.length)?)
}
