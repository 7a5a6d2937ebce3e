// The audit of the two stack shadows: a walk from byte to byte, which passes runs of zeros and of a block's bytes at once.
#![tactic(auto)]

ghost use Rattle.std.specs.Prelude.{◌≡◌, ◌≤◌, length};
ghost use Rattle.number.specs.Parts.{at};
ghost use Rattle.plain.specs.Answers.{stack_tally};
ghost use Rattle.stack_layout.specs.Ops.{stack_ops};
ghost use Rattle.stack_audit_laws.specs.Turn as turn;
ghost use Rattle.stack_audit_laws.specs.Rest.{Stands, Turned};

use map::Position;
use plain::Totals;
use stack_audit_laws::{Moved, Run, Walk};
use stack_audit_runs::ahead;
use stack_audit_walk::{after, current, literal_at, past, stands};
use stack_audit_zeros::clear_to;

// The turn past the one byte at q, of a block of length k, a literal or not, or of none where k is 0.
fn one(
    primary: &[u8],
    secondary: &[u8],
    q: Position,
    w: Walk,
    k: u32,
    literal: bool,
) -> Option<Moved>
    requires { Stands primary.now secondary.now q.0 w × (k ≡ turn.current (length primary.now) (at primary.now) (at secondary.now) q.0 w.len)
        × (literal ≡ turn.literal_at (at primary.now) q.0 w.i) }
    ensures { Turned primary.now secondary.now q.0 w result }
{
    let Position(at) = q;
    let x = primary[at];
    if !stands(x, secondary[at], k, w.i, literal) {
        return None;
    }
    Some(Moved {
        walk: after(w, k, x & 1),
        n: 1,
    })
}

// The turn at q: past a run of bytes that are zero or of one block, else past one.
fn turn(primary: &[u8], secondary: &[u8], q: Position, w: Walk) -> Option<Moved>
    requires { Stands primary.now secondary.now q.0 w }
    ensures { Turned primary.now secondary.now q.0 w result }
{
    let k = current(primary, secondary, q, w.len);
    let literal = literal_at(primary, q, w.i);
    if k == 0 {
        let Position(at) = q;
        let Position(end) = clear_to(primary, secondary, q);
        if at < end {
            return Some(Moved {
                walk: w,
                n: end - at,
            });
        }
    } else {
        let Run { n, written } = ahead(primary, secondary, q, k, w.i, literal);
        if n != 0 {
            return Some(Moved {
                walk: past(w, k, n as u32, written),
                n,
            });
        }
    }
    one(primary, secondary, q, w, k, literal)
}

// The totals of the blocks of which the shadows are the image; None where they are no image.
pub fn audit(primary: &[u8], secondary: &[u8]) -> Option<Totals>
    requires { (length primary.now ≡ length secondary.now) × (length primary.now ≤ 65536) }
    ensures { stack_tally result ≡ (stack_ops (length primary.now)).audit (primary.now, secondary.now) }
{
    let mut w = Walk {
        len: 0,
        i: 0,
        blocks: 0,
        live: 0,
        written: 0,
    };
    let mut q = 0;
    // a `while`, since each turn tells its own step
    while q < primary.len() {
        let Moved { walk, n } = turn(primary, secondary, Position(q), w)?;
        w = walk;
        q += n;
    }
    if w.len == 0 {
        return Some(Totals {
            blocks: w.blocks,
            live: w.live,
            written: w.written,
        });
    }
    None
}
