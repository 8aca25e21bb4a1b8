// The walk that adds the projection of an expression, over a table of the projections: one function for a node, one for
// its remaining children, which call each other. The pair of the node and of the children left falls. The table is
// carried along, so each node is answered once.
ghost use Rattle.std.specs.Prelude.{Ok, ◌≡◌, ℕ, ◌≤◌, ◌<◌, ◌+◌, ◌-◌, ◌*◌, Ok};
ghost use Rattle.arena.specs.Layout.{count, decode as nodes};
ghost use Rattle.arena.specs.Calls.{in_cells};
ghost use Rattle.arena.specs.Inner.{Known};
ghost use Rattle.classes.specs.Layout.{decode as classes};
ghost use Rattle.classes.specs.Inner.{Coded};
ghost use Rattle.mappings.specs.Layout.{decode, Checked};
ghost use Rattle.projection_table.specs.Projecting.{projection};
ghost use Rattle.projection.specs.Calls.{projected_answer};
ghost use Rattle.projection.specs.Inner.{Ready, Walked, ReadyFrom, WalkedFrom, settled_as, restored_as};

use arena::Refusal;
use arena::adding::place;
use arena::cells::{row_of, wide};
use classes::Group;
use mappings::Mapping;
use projection_table::table::projection_table;

// Writes an answer for node e into the table.
fn settle(table: &mut [u32; 1024], e: usize, answer: Result<u32, Refusal>)
    requires { (e < 1024) × ((i : ℕ) → answer ≡ Ok i → i < 1024) }
    ensures { table.new ≡ settled_as table.old e answer }
{
    if let Ok(i) = answer {
        table[e] = i + 2;
    }
}

// Adds the projections of the children of node e from child k on, left to right, and writes their numbers into its row.
#[cycle(project_children_project_node)]
fn project_children(
    cells: &mut [u32; 11265],
    table: &mut [u32; 1024],
    row: &mut [u32; 11],
    expr: u32,
    k: usize,
) -> bool
    requires { ReadyFrom cells.old table.old row.old expr k }
    ensures { WalkedFrom cells.old table.old row.old cells.new table.new row.new expr k result }
{
    if wide(row[2]) <= k {
        return true;
    }
    let Ok(i) = project_node(cells, table, row[3 + k]) else {
        return false;
    };
    row[3 + k] = i;
    project_children(cells, table, row, expr, k + 1)
}

// Adds the projection of a node that has one: what the table says, or the operation over its children's projections.
#[cycle(project_children_project_node)]
pub fn project_node(
    cells: &mut [u32; 11265],
    table: &mut [u32; 1024],
    expr: u32,
) -> Result<u32, Refusal>
    requires { Ready cells.old table.old expr }
    ensures { Walked cells.old table.old cells.new table.new expr result }
{
    let e = wide(expr);
    let entry = table[e];
    if entry != 1 {
        return Ok(entry - 2);
    }
    let mut row = row_of(cells, e);
    if !project_children(cells, table, &mut row, expr, 0) {
        return Err(Refusal::ArenaFull);
    }
    let answer = place(cells, &row);
    settle(table, e, answer);
    answer
}

// What the caller is told of a walk: where it found no room 3, and every cell is as it was saved.
fn restored(
    cells: &mut [u32; 11265],
    saved: &[u32; 11265],
    answer: Result<u32, Refusal>,
) -> Result<Option<u32>, Refusal>
    ensures { (result, cells.new) ≡ restored_as saved.now cells.old answer }
{
    match answer {
        Ok(i) => Ok(Some(i)),
        Err(_) => {
            *cells = *saved;
            Err(Refusal::ArenaFull)
        }
    }
}

// The projection of an expression: 3 where its missing nodes don't fit, and then every cell is as it was.
pub fn project_in(
    cells: &mut [u32; 11265],
    g: Group,
    m: Mapping,
    expr: u32,
) -> Result<Option<u32>, Refusal>
    requires { (Known cells.old expr × Checked (count cells.old) m) × Coded g }
    ensures { (result, cells.new) ≡ in_cells (projected_answer (nodes cells.old) (projection (nodes cells.old) (classes g) (decode m) expr)) }
{
    let mut table = projection_table(cells, g, m);
    if table[wide(expr)] == 0 {
        return Ok(None);
    }
    let saved = *cells;
    let answer = project_node(cells, &mut table, expr);
    restored(cells, &saved, answer)
}
