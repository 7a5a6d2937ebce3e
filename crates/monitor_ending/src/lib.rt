// What a reading says of a block that is to end.
#![tactic(auto)]

ghost use Rattle.std.specs.Prelude.{◌≡◌};
ghost use Rattle.plain.specs.Answers.{reading_of};
ghost use Rattle.monitor_write_laws.specs.Checks.{ending_of};

use map::Position;
use monitor_base::{Block, Refusal};
use plain::Reading;

// By the reading at its base: only a block's first byte is accepted.
pub fn ending(r: Reading, base: Position) -> Result<Block, Refusal>
    ensures { result ≡ ending_of (reading_of r) base }
{
    match r {
        Reading::Nothing => Err(Refusal::NoBlock),
        Reading::Damaged => Err(Refusal::Damaged),
        Reading::Block(_, length, offset, _) => {
            if offset != 0 {
                return Err(Refusal::NoBlock);
            }
            Ok(Block { base, length })
        }
    }
}
