// Shifting: an expression of an arena with every column moved by an offset (document 01, "Expressions").
//
// Names stay, indices move, and the missing nodes are added. The cells are the caller's: the function of this
// file checks them for itself and asks nothing of its caller, and a refusal gives its number of document 01's
// table and leaves every cell as it was. Those of the module serve the crates above, which hold an arena that is
// checked already, and say in `requires` what they ask.
#![tactic(auto)]

pub mod shifting;

ghost use Rattle.std.specs.Prelude.{◌≡◌};
ghost use Rattle.arena.specs.Calls.{lent};
ghost use Rattle.shifting.specs.Calls.{add_offset};

use arena::cells::{node_count, wide};
use arena::{Refusal, check_arena};
use shifting::shift_in;

// Shifts every column of an expression by an offset, names kept, and adds the missing nodes.
// Refusals: 11, 1, 10, 3.
pub fn add_offset_to_expr(cells: &mut [u32; 11265], expr: u32, offset: i64) -> Result<u32, Refusal>
    ensures { (result, cells.new) ≡ lent (add_offset expr offset) cells.old }
{
    check_arena(cells)?;
    if node_count(cells) <= wide(expr) {
        return Err(Refusal::UnknownExpression);
    }
    shift_in(cells, expr, offset)
}
