// The projection of an expression and of a list of expressions by a group and a mapping (document 01, "Classes"): a
// mapped source becomes its first target; else a literal stays; else the first mapping whose source's class holds it
// gives its first target; else all children must project; a childless node does not. What is missing of the answers is
// added to the arena; nothing is added of a projection that fails.
//
// The functions of this file are the public calls and ask nothing of their caller: each checks the lent arena, the
// group, the mapping and the expressions for itself, in the order 12, 11, 1, 3, 8, and a refusal gives its number and
// leaves every cell and the output as they were. Those of the modules serve the crates above, which hold states that
// are checked already.
#![tactic(auto)]

pub mod listing;
pub mod walking;

ghost use Rattle.std.specs.Prelude.{◌≡◌};
ghost use Rattle.projection.specs.Calls.{projected_expr, projected_expressions, told_list};

use arena::Refusal;
use arena::adding::all_below;
use arena::cells::{node_count, wide};
use classes::Group;
use listing::project_list;
use mappings::lent::{project_number, read_mapping};
use walking::project_in;

// The projection of an expression: its number, or that there is none. The mapping has for each source the source, its target count and its targets.
// Refusals: 12, 11, 1, 3.
pub fn project_expr(
    cells: &mut [u32; 11265],
    group: Group,
    mapping: &[u32],
    expr: u32,
) -> Result<Option<u32>, Refusal>
    ensures { (result, cells.new) ≡ projected_expr expr mapping.now cells.old group }
{
    project_number(cells, group, mapping)?;
    let n = node_count(cells);
    if n <= wide(expr) {
        return Err(Refusal::UnknownExpression);
    }
    project_in(cells, group, read_mapping(mapping), expr)
}

// The projections of a list of expressions, one place of the output for each: its number, or 4,294,967,295 where there
// is none. The output past the last one is unchanged. Refusals: 12, 11, 1, 3, 8.
pub fn project_expressions(
    cells: &mut [u32; 11265],
    group: Group,
    mapping: &[u32],
    exprs: &[u32],
    out: &mut [u32],
) -> Result<(), Refusal>
    ensures { ((result, out.new), cells.new) ≡ told_list (projected_expressions exprs.now out.old mapping.now cells.old group) }
{
    project_number(cells, group, mapping)?;
    if !all_below(exprs, node_count(cells)) {
        return Err(Refusal::UnknownExpression);
    }
    project_list(cells, group, read_mapping(mapping), exprs, out)
}
