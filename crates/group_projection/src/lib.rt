// The projection of a group of equality classes by a mapping (document 01, "Classes"): what becomes of its classes, and
// which targets are equal or constant.
//
// The function of this file is the public call and asks nothing of its caller: it checks the lent arena, the group and
// the mapping for itself, and a refusal gives its number of document 01's table and leaves everything as it was. Those
// of the modules serve the crates above, which hold states that are checked already.
#![tactic(auto)]

pub mod constants;
pub mod listing;
pub mod normal_forms;
pub mod projecting;

ghost use Rattle.std.specs.Prelude.{◌≡◌};
ghost use Rattle.group_projection.specs.Calls.{project_answer};

use classes::refusing::refusal;
use classes::{Changed, Group};
use mappings::lent::{project_number, read_mapping};
use projecting::project_in;

// Projects a group: the members' projections as classes, the targets of sources with one normal form as a class, then
// the constants of the sources for each of their targets. The mapping has for each source the source, its target count
// and its targets. The limit is 256. Refusals: 12, 11, 1, 3, 4, with the group as it was.
pub fn project(cells: &mut [u32; 11265], group: Group, mapping: &[u32]) -> Changed
    ensures { (result, cells.new) ≡ project_answer cells.old group mapping.now }
{
    if let Err(why) = project_number(cells, group, mapping) {
        return refusal(why, group);
    }
    project_in(cells, group, read_mapping(mapping))
}
