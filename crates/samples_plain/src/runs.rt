// Records for the calls program, with semicolons between: `run: 1 4096 64 8192 32; 2 4104 1`.
use map::Map;
use samples_output::{gap, write, write_line};
use samples_records::Record;
use std::io::Stdout;

// The line of a record, and the map after it; none where no call is decoded.
fn answer_record(
    output: Stdout,
    map: Map,
    heap: &mut [u8; 32768],
    primary: &mut [u8; 16384],
    secondary: &mut [u8; 16384],
    bytes: &[u8; 64],
    record: Record,
) -> Option<Map> {
    let Some(request) = crate::decode(bytes, record) else {
        write(output, b"9");
        return None;
    };
    let served = calls_serve::serve(map, heap, primary, secondary, request);
    write_line(output, calls_kinds::kind_of(request), served.answer);
    Some(served.map)
}

// Their lines, with semicolons between. Text that is no record ends them.
// The form with origins has this loop too: what a record changes differs, and a closure over all of that would be no plainer.
pub fn answer(output: Stdout, line: &[u8], at: usize) {
    let mut heap = [0u8; 32768];
    let mut primary = [0u8; 16384];
    let mut secondary = [0u8; 16384];
    let mut map = Map {
        heap_start: 0,
        heap_size: 0,
        stack_start: 0,
        stack_size: 0,
    };
    let mut place = at;
    let mut bytes = [0u8; 64];
    write(output, b" =>");
    for i in 0..4096u32 {
        let item = samples_records::item_at(line, place, &mut bytes);
        if let Ok(None) = item {
            return;
        }
        gap(output, i);
        let Ok(Some(record)) = item else {
            write(output, b"?");
            return;
        };
        let Some(kept) = answer_record(
            output,
            map,
            &mut heap,
            &mut primary,
            &mut secondary,
            &bytes,
            record,
        ) else {
            return;
        };
        map = kept;
        place = record.end;
    }
}
