// One call on given shadow bytes: `on: heap@8=1,0 pri@0=4 : ask 4104`, or, on the desk, `on desk: ..`.
ghost use Rattle.std.specs.Prelude.{◌≡◌, replicate};
ghost use Rattle.samples_bytes.specs.Given.{is_given, store_all};

use calls_format::Request;
use map::{Form, Map};
use monitor::{Answer, Call, PlainCall, Update};
use samples_output::{change, malformed, write_answer, write_room};
use std::io::Stdout;

// The call, under the map of all samples.
fn step(
    form: Form,
    call: PlainCall,
    heap: &mut [u8; 64],
    primary: &mut [u8; 32],
    secondary: &mut [u8; 32],
) -> Answer {
    let map = Map {
        heap_start: 4096,
        heap_size: 64,
        stack_start: 8192,
        stack_size: 32,
    };
    monitor::step(call, form, map, heap, primary, secondary)
}

// No name is the map's, so that its record does not come up.
fn answer_request(
    output: Stdout,
    form: Form,
    request: Request,
    heap: &mut [u8; 64],
    primary: &mut [u8; 32],
    secondary: &mut [u8; 32],
) {
    match request {
        Request::NewMap(_) => malformed(output),
        Request::Call(call) => write_answer(
            output,
            calls_kinds::kind_of(request),
            step(form, PlainCall::Call(call), heap, primary, secondary),
        ),
    }
}

// The record of the call whose name stands there.
fn request_at(line: &[u8], at: usize) -> Option<Request> {
    let mut bytes = [0u8; 64];
    let record = samples_records::call_at(line, at, &mut bytes)?;
    crate::decode(&bytes, record)
}

// A call that has a record.
fn answer_named(
    output: Stdout,
    form: Form,
    line: &[u8],
    at: usize,
    heap: &mut [u8; 64],
    primary: &mut [u8; 32],
    secondary: &mut [u8; 32],
) {
    match request_at(line, at) {
        Some(request) => answer_request(output, form, request, heap, primary, secondary),
        None => malformed(output),
    }
}

// Clear has no record of its own, and no number.
fn answer_clear(
    output: Stdout,
    form: Form,
    line: &[u8],
    at: usize,
    heap: &mut [u8; 64],
    primary: &mut [u8; 32],
    secondary: &mut [u8; 32],
) {
    if samples_text::at_end(line, at) {
        let clear = Call::Update(Update::Clear);
        write_answer(
            output,
            0,
            step(form, PlainCall::Call(clear), heap, primary, secondary),
        );
    } else {
        malformed(output);
    }
}

// The number after spaces.
fn next_number(line: &[u8], at: usize) -> Option<(u32, usize)> {
    samples_text::number_at(line, samples_text::skip_spaces(line, at))
}

// A length and a budget, which end the line.
fn place_at(line: &[u8], at: usize) -> Option<PlainCall> {
    let (length, after) = next_number(line, at)?;
    let (budget, end) = next_number(line, after)?;
    if samples_text::at_end(line, end) {
        Some(PlainCall::Place(length, budget))
    } else {
        None
    }
}

// Place has no record either.
fn answer_place(
    output: Stdout,
    form: Form,
    line: &[u8],
    at: usize,
    heap: &mut [u8; 64],
    primary: &mut [u8; 32],
    secondary: &mut [u8; 32],
) {
    match place_at(line, at) {
        Some(call) => write_room(output, step(form, call, heap, primary, secondary)),
        None => malformed(output),
    }
}

fn answer_call(
    output: Stdout,
    form: Form,
    line: &[u8],
    at: usize,
    heap: &mut [u8; 64],
    primary: &mut [u8; 32],
    secondary: &mut [u8; 32],
) {
    let start = samples_text::skip_spaces(line, at);
    if let Some(clear) = samples_text::after_name(line, start, b"clear") {
        answer_clear(output, form, line, clear, heap, primary, secondary);
        return;
    }
    if let Some(place) = samples_text::after_name(line, start, b"place") {
        answer_place(output, form, line, place, heap, primary, secondary);
        return;
    }
    answer_named(output, form, line, start, heap, primary, secondary);
}

// The answer, and each shadow that the call changed, or a question mark where the call is malformed.
// Nothing, and false, where the given bytes are.
pub fn answer(output: Stdout, form: Form, line: &[u8], at: usize) -> bool
    ensures { result ≡ is_given (store_all 4096 line.now at (replicate 64 0) (replicate 32 0) (replicate 32 0)) }
{
    let mut heap = [0u8; 64];
    let mut primary = [0u8; 32];
    let mut secondary = [0u8; 32];
    let Some(colon) = samples_bytes::store_all(line, at, &mut heap, &mut primary, &mut secondary)
    else {
        return false;
    };
    let heap_was = heap;
    let primary_was = primary;
    let secondary_was = secondary;
    answer_call(
        output,
        form,
        line,
        colon,
        &mut heap,
        &mut primary,
        &mut secondary,
    );
    let mut told = change(output, b" heap@", &heap_was, &heap, false);
    told = change(output, b" pri@", &primary_was, &primary, told);
    change(output, b" sec@", &secondary_was, &secondary, told);
    true
}
