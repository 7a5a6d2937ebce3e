// A call by its name.
use calls_origins_format::Request;
use monitor_base::{Call, Update};
use origins_base::OriginsCall;

// The kind that says which fields are told, 0 for none, and the call.
#[derive(Clone, Copy)]
pub struct Asked {
    pub kind: u32,
    pub call: OriginsCall,
}

// No name is the map's, so that its record does not come up.
fn plain_call(request: calls_format::Request) -> Option<OriginsCall> {
    match request {
        calls_format::Request::NewMap(_) => None,
        calls_format::Request::Call(call) => Some(OriginsCall::Plain(call)),
    }
}

fn call_of(request: Request) -> Option<OriginsCall> {
    match request {
        Request::Plain(asked) => plain_call(asked),
        Request::Pointer(pointer) => Some(OriginsCall::Pointer(pointer)),
    }
}

// A call that has a record.
fn recorded(line: &[u8], at: usize) -> Option<Asked> {
    let mut bytes = [0u8; 64];
    let record = samples_records::call_at(line, at, &mut bytes)?;
    let request = crate::decode(&bytes, record)?;
    Some(Asked {
        kind: calls_origins_kinds::kind_of(request),
        call: call_of(request)?,
    })
}

// The call that ends the line. Clear has no record of its own.
pub fn call_at(line: &[u8], at: usize) -> Option<Asked> {
    let start = samples_text::skip_spaces(line, at);
    let Some(clear) = samples_text::after_name(line, start, b"clear") else {
        return recorded(line, start);
    };
    if samples_text::at_end(line, clear) {
        Some(Asked {
            kind: 0,
            call: OriginsCall::Plain(Call::Update(Update::Clear)),
        })
    } else {
        None
    }
}
