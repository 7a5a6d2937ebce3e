// Clauses of a stack reading: what can stand in a piece, and whether the block found fits the area.
#![tactic(auto)]

ghost use Rattle.std.specs.Prelude.{◌≡◌, ◌<◌, ◌≤◌};
ghost use Rattle.plain.specs.Answers.{reading_of};
ghost use Rattle.stack_layout.specs.Reading.{fitted, bad_piece};

use map::Position;
use plain::Reading;

// Position p is byte i of a block of length len, bits the low two of its primary byte: damaged where that block does not fit the area.
pub fn fit(size: usize, p: Position, len: u32, i: u32, bits: u8) -> Reading
    requires { (size ≤ 65536) × (p.0 < size) }
    ensures { reading_of result ≡ fitted size p.0 len i bits }
{
    let Position(at) = p;
    let offset = i as usize;
    if at < offset {
        return Reading::Damaged;
    }
    if size + offset < at + (len as usize) {
        return Reading::Damaged;
    }
    Reading::Block(Position(at - offset), len, i, bits)
}

// Length len and piece offset o cannot stand in a piece that has a byte j. Where a difference wraps, an earlier test has found it bad.
pub fn bad_piece(len: u32, o: u32, j: u32) -> bool
    requires { j < 15 }
    ensures { result ≡ bad_piece len o j }
{
    let left = len.wrapping_sub(o);
    (len < 9) | (o % 8 != 0) | (len.wrapping_sub(8) < o) | ((7 < j) & (16 <= left)) | (left <= j)
}
