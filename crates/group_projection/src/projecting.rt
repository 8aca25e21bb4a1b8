// The projection of a group, over an arena, a group and a mapping that are checked already.
ghost use Rattle.std.specs.Prelude.{◌≡◌, ℕ, ◌≤◌, ◌<◌, get_or, take};
ghost use Rattle.arena.specs.Layout.{count, decode as nodes};
ghost use Rattle.arena.specs.Calls.{in_cells};
ghost use Rattle.arena.specs.Inner.{Holds};
ghost use Rattle.classes.specs.Good.{flat};
ghost use Rattle.classes.specs.Layout.{decode};
ghost use Rattle.classes.specs.Inner.{Coded, Held};
ghost use Rattle.mappings.specs.Layout.{decode as mapping, Checked};
ghost use Rattle.projection.specs.Inner.{answers_in};
ghost use Rattle.group_projection.specs.Group.{projected_group};
ghost use Rattle.group_projection.specs.Calls.{project_by};
ghost use Rattle.group_projection.specs.Inner.{made_or_none, Entries, ProjectedOver};

use crate::constants::source_constants;
use crate::listing::projected_list;
use crate::normal_forms::source_forms;
use arena::Refusal;
use arena::cells::node_count;
use classes::refusing::refusal;
use classes::{Changed, Group};
use mappings::Mapping;
use merging::bridging::from_classes;
use normal::table::class_firsts;
use projection::listing::project_all;
use projection_table::table::projection_table;

// The projected group, once the nodes are there. Refusal: 4.
fn projected_group(
    cells: &[u32; 11265],
    table: &[u32; 1024],
    g: Group,
    m: Mapping,
    numbers: [u32; 64],
) -> Result<Group, Refusal>
    requires { ((Holds cells.now × Checked (count cells.now) m) × Held (nodes cells.now) g) × Entries (count cells.now) table.now g.members g.used }
    ensures { result ≡ made_or_none (projected_group (nodes cells.now) (decode g) (mapping m) (answers_in table.now (flat (decode g))) (take m.count numbers)) }
{
    let list = projected_list(cells, table, g, m, numbers)?;
    source_constants(cells, g, m, from_classes(list))
}

// The projection of a group. After a refusal, 3 or 4, the arena may have grown.
fn project_over(cells: &mut [u32; 11265], g: Group, m: Mapping) -> Result<Group, Refusal>
    requires { (Holds cells.old × Held (nodes cells.old) g) × Checked (count cells.old) m }
    ensures { ProjectedOver cells.old cells.new g (mapping m) result }
{
    let old = node_count(cells);
    let firsts = class_firsts(g, old);
    let mut table = projection_table(cells, g, m);
    let members = g.members;
    let used = g.used;
    if !project_all(cells, &mut table, &members[..used]) {
        return Err(Refusal::ArenaFull);
    }
    let Ok(numbers) = source_forms(cells, &firsts, m, old) else {
        return Err(Refusal::ArenaFull);
    };
    projected_group(cells, &table, g, m, numbers)
}

// The projection of a group: 3 where its nodes don't fit, 4 where it exceeds the bounds, and then every cell is as it
// was.
pub fn project_in(cells: &mut [u32; 11265], g: Group, m: Mapping) -> Changed
    requires { (Holds cells.old × Held (nodes cells.old) g) × Checked (count cells.old) m }
    ensures { (result, cells.new) ≡ in_cells (project_by (mapping m) g (nodes cells.old)) }
{
    let saved = *cells;
    let group = match project_over(cells, g, m) {
        Ok(group) => group,
        Err(why) => {
            *cells = saved;
            return refusal(why, g);
        }
    };
    Changed {
        answer: Ok(true),
        group,
    }
}
