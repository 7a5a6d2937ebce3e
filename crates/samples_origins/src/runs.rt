// Records for the calls program: `run origins: 1 4096 64 8192 32; 2 8192 4; 11 8192 8192`.
use map::Map;
use samples_output::{gap, write, write_line};
use samples_records::Record;
use std::io::Stdout;

// The line of a record; the map and the counter after it, none where no call is decoded.
fn answer_record(
    output: Stdout,
    map: Map,
    heap: &mut [u8; 32768],
    primary: &mut [u8; 16384],
    secondary: &mut [u8; 16384],
    heap_cells: &mut [u8; 65536],
    stack_cells: &mut [u8; 32768],
    counter: u64,
    bytes: &[u8; 64],
    record: Record,
) -> Option<(Map, u64)> {
    let Some(request) = crate::decode(bytes, record) else {
        write(output, b"9");
        return None;
    };
    let served = calls_origins_serve::serve(
        map,
        heap,
        primary,
        secondary,
        heap_cells,
        stack_cells,
        counter,
        request,
    );
    let answer = served.answer;
    write_line(output, calls_origins_kinds::kind_of(request), answer);
    Some((served.map, served.counter))
}

// Their lines, with semicolons between. Text that is no record ends them.
pub fn answer(output: Stdout, line: &[u8], at: usize) {
    let mut heap = [0u8; 32768];
    let mut primary = [0u8; 16384];
    let mut secondary = [0u8; 16384];
    let mut heap_cells = [0u8; 65536];
    let mut stack_cells = [0u8; 32768];
    let mut map = Map {
        heap_start: 0,
        heap_size: 0,
        stack_start: 0,
        stack_size: 0,
    };
    let mut counter: u64 = 1;
    let mut place = at;
    let mut bytes = [0u8; 64];
    write(output, b" =>");
    for i in 0..4096u32 {
        let item = samples_records::item_at(line, place, &mut bytes);
        if let Ok(None) = item {
            return;
        }
        gap(output, i);
        let Ok(Some(record)) = item else {
            write(output, b"?");
            return;
        };
        let Some((map_after, counter_after)) = answer_record(
            output,
            map,
            &mut heap,
            &mut primary,
            &mut secondary,
            &mut heap_cells,
            &mut stack_cells,
            counter,
            &bytes,
            record,
        ) else {
            return;
        };
        map = map_after;
        counter = counter_after;
        place = record.end;
    }
}
