// The names of the calls that have a record.
ghost use Rattle.std.specs.Prelude.{◌≡◌, ◌≤◌, IfSome};
ghost use Rattle.samples_records.specs.Names.{or_named, or_names, name_in, changing_names, reading_names, pointer_names, call_names};

// A call's kind, and the place after its name.
#[derive(Clone, Copy)]
pub struct Named {
    pub kind: u32,
    pub end: usize,
}

// What is found by now, or this name, where it stands at the place.
fn or(found: Option<Named>, line: &[u8], at: usize, name: &[u8], kind: u32) -> Option<Named>
    ensures { result ≡ or_named line.now at found (name.now, kind) }
{
    if found.is_some() {
        return found;
    }
    let end = samples_text::after_name(line, at, name)?;
    Some(Named { kind, end })
}

// The calls that change shadows.
fn changing(found: Option<Named>, line: &[u8], at: usize) -> Option<Named>
    ensures { result ≡ or_names line.now at found changing_names }
{
    let mut found = or(found, line, at, b"record", 2);
    found = or(found, line, at, b"record_written", 10);
    found = or(found, line, at, b"record_literal", 14);
    found = or(found, line, at, b"free", 3);
    found = or(found, line, at, b"remove", 16);
    or(found, line, at, b"written", 4)
}

// The calls that only read them.
fn reading(found: Option<Named>, line: &[u8], at: usize) -> Option<Named>
    ensures { result ≡ or_names line.now at found reading_names }
{
    let mut found = or(found, line, at, b"ask", 5);
    found = or(found, line, at, b"valid", 6);
    found = or(found, line, at, b"valid_read", 15);
    found = or(found, line, at, b"initialised", 7);
    found = or(found, line, at, b"next", 8);
    or(found, line, at, b"audit", 9)
}

// The calls of pointers, which the form with origins alone has.
fn pointing(found: Option<Named>, line: &[u8], at: usize) -> Option<Named>
    ensures { result ≡ or_names line.now at found pointer_names }
{
    let mut found = or(found, line, at, b"point", 11);
    found = or(found, line, at, b"copy", 12);
    or(found, line, at, b"live", 13)
}

// The call whose name stands at a place.
pub fn name_at(line: &[u8], at: usize) -> Option<Named>
    ensures { (result ≡ name_in line.now at call_names) × IfSome result (λ n. n.kind ≤ 65535) }
{
    pointing(reading(changing(None, line, at), line, at), line, at)
}
