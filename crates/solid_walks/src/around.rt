//! Walks round a vertex.
ghost use Rattle.std.specs.Prelude.{◌≡◌, true};
ghost use Rattle.euler_operators.specs.Common.{before, has_half};
ghost use Rattle.euler_conditions.specs.Ready.{IsReady};
ghost use Rattle.shapes.specs.Common.{leads};

use crate::codes::back;
use euler_conditions::{Arena, mate_code, round_code};
use euler_operators::HALF_EDGE_CODES;

/// Whether the half-edge of a code is of the least edge at its vertex. `previous` is the code of the item before it in its loop, whose edge ends at
/// that vertex.
///
/// It goes round the vertex both ways, a step back and a step ahead in turn, until it meets a lesser edge or has seen all. The first step back is the
/// step to the edge of `previous`. So asking this of all d half-edges at a vertex takes about d log d steps, in whatever order their numbers stand.
pub fn leads(arena: &Arena, previous: u32, code: u32) -> bool
    requires ready { IsReady arena.now }
    requires there { has_half arena.now.model code ≡ true }
    requires previous { previous ≡ before arena.now.model code }
    ensures { result ≡ leads arena.now.model code }
{
    let edge = code / 2;
    let mut ahead = code;
    let mut behind = mate_code(previous);
    'round: for _ in 0..HALF_EDGE_CODES {
        if behind / 2 < edge {
            return false;
        }
        if behind == ahead {
            return true;
        }
        let next = round_code(arena, ahead);
        if next / 2 < edge {
            return false;
        }
        if next == behind {
            return true;
        }
        ahead = next;
        behind = back(arena, behind);
    }
    true
}
