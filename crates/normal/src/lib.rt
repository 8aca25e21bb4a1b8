// Normal forms (document 01, "Classes"): children first, then the rewritten node is looked up once; its class's
// first member replaces it and is not entered again. What is missing of the answer is added to the arena.
//
// The function of this file is the public call and asks nothing of its caller: it checks the lent arena and the group
// for itself, in the order 12, 11, 1, 3, and a refusal gives its number and leaves every cell as it was. Those of the
// modules serve the crates above, which hold states that are checked already.
#![tactic(auto)]

pub mod normalizing;
pub mod table;

ghost use Rattle.std.specs.Prelude.{◌≡◌};
ghost use Rattle.normal.specs.Calls.{normalized};

use arena::Refusal;
use arena::cells::{node_count, wide};
use classes::Group;
use group_checks::checking::check_group;
use normalizing::normalize_in;

// The normal form of an expression. Refusals: 12, 11, 1, 3.
pub fn normalize_expr(cells: &mut [u32; 11265], group: Group, expr: u32) -> Result<u32, Refusal>
    ensures { (result, cells.new) ≡ normalized expr cells.old group }
{
    check_group(cells, group)?;
    let n = node_count(cells);
    if n <= wide(expr) {
        return Err(Refusal::UnknownExpression);
    }
    normalize_in(cells, group, expr)
}
