// The projections of a list of expressions, one after the other, over one table.
ghost use Rattle.std.specs.Prelude.{map, ◌++◌, ◌≡◌, ℕ, ◌≤◌, ◌<◌, length, get_or, drop};
ghost use Rattle.arena.specs.Layout.{count, decode as nodes};
ghost use Rattle.arena.specs.Calls.{in_cells};
ghost use Rattle.arena.specs.Inner.{Holds};
ghost use Rattle.classes.specs.Layout.{decode as classes};
ghost use Rattle.classes.specs.Inner.{Coded};
ghost use Rattle.mappings.specs.Layout.{decode, Checked};
ghost use Rattle.projection_table.specs.Projecting.{project_all};
ghost use Rattle.projection.specs.Calls.{output_of, written_answer, told_list};
ghost use Rattle.projection.specs.Inner.{answer_of, answers_in, ReadyOne, WalkedOne, ReadyAll, WalkedAll};

use crate::walking::project_node;
use arena::Refusal;
use arena::cells::wide;
use arena::memo::refused;
use classes::Group;
use mappings::Mapping;
use projection_table::table::projection_table;

// Adds the projection of an expression if it has one; false where the arena has no room.
fn project_one(cells: &mut [u32; 11265], table: &mut [u32; 1024], expr: u32) -> bool
    requires { ReadyOne cells.old table.old expr }
    ensures { WalkedOne cells.old table.old cells.new table.new expr result }
{
    if table[wide(expr)] == 0 {
        return true;
    }
    let answer = project_node(cells, table, expr);
    !refused(answer)
}

// Adds the projections of a list of expressions; false where the arena has no room.
pub fn project_all(cells: &mut [u32; 11265], table: &mut [u32; 1024], exprs: &[u32]) -> bool
    requires { ReadyAll cells.old table.old exprs.now }
    ensures { WalkedAll cells.old table.old cells.new table.new exprs.now result }
{
    for k in 0..exprs.len() {
        if !project_one(cells, table, exprs[k]) {
            return false;
        }
    }
    true
}

// An entry of the table in the output.
fn output_of(entry: u32) -> u32
    ensures { result ≡ output_of (answer_of entry) }
{
    if entry < 2 { 4294967295 } else { entry - 2 }
}

// Writes the answers of the table for a list of expressions, from the output's first place on.
fn write_answers(table: &[u32; 1024], exprs: &[u32], out: &mut [u32])
    requires { (length exprs.now ≤ length out.old) × ((k : ℕ) → k < length exprs.now → get_or exprs.now k 0 < 1024) }
    ensures { out.new ≡ map output_of (answers_in table.now exprs.now) ++ drop (length exprs.now) out.old }
{
    for k in 0..exprs.len() {
        let answer = output_of(table[wide(exprs[k])]);
        out[k] = answer;
    }
}

// The projections of a list of expressions: 3 where their missing nodes don't fit, 8 where the output is too short, and
// then every cell is as it was.
pub fn project_list(
    cells: &mut [u32; 11265],
    g: Group,
    m: Mapping,
    exprs: &[u32],
    out: &mut [u32],
) -> Result<(), Refusal>
    requires { ((Holds cells.old × Checked (count cells.old) m) × Coded g) × ((k : ℕ) → k < length exprs.now → get_or exprs.now k 0 < count cells.old) }
    ensures { ((result, out.new), cells.new) ≡ told_list (in_cells (written_answer out.old (nodes cells.old) (project_all (nodes cells.old) (classes g) (decode m) exprs.now))) }
{
    let saved = *cells;
    let mut table = projection_table(cells, g, m);
    if !project_all(cells, &mut table, exprs) {
        *cells = saved;
        return Err(Refusal::ArenaFull);
    }
    if out.len() < exprs.len() {
        *cells = saved;
        return Err(Refusal::OutputShort);
    }
    write_answers(&table, exprs, out);
    Ok(())
}
