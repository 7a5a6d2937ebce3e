// The calls program of the form with origins: records from standard input, a line for each to standard output.
#![tactic(auto)]

fn main(rt: HostRuntime) {
    let mut heap = [0u8; 32768];
    let mut primary = [0u8; 16384];
    let mut secondary = [0u8; 16384];
    let mut heap_cells = [0u8; 65536];
    let mut stack_cells = [0u8; 32768];
    let mut bytes = [0u8; 65536];
    let mut lines = [0u8; 65536];
    calls_origins_all::all(
        rt.stdin(),
        rt.stdout(),
        &mut heap,
        &mut primary,
        &mut secondary,
        &mut heap_cells,
        &mut stack_cells,
        &mut bytes,
        &mut lines,
    );
}
