// Samples of the form with origins: a call on a given state, or a run of its calls program.
#![tactic(auto)]

pub mod calls;
pub mod named;
pub mod runs;

use calls_origins_format::Request;
use samples_records::Record;

// What a record, which is the first bytes, says to the decoder of the calls program.
fn decode(bytes: &[u8; 64], record: Record) -> Option<Request> {
    calls_origins_records::decode(bytes.get(..record.length)?)
}
