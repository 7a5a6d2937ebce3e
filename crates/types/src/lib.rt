// The types that a reader of the specification meets: map, shadows, blocks, readings, calls, answers. They stand in specs/; this one is the code's too.
#![tactic(auto)]

// How a block begins: no byte written, every byte written, or as a literal, which is written and stays as it is.
#[derive(Clone, Copy)]
pub enum Beginning {
    Unwritten,
    Written,
    Literal,
}
