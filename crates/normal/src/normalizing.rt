// The walk of the normal form, by recursion on the node number, over an arena and a group that are checked already.
// Each operation is entered once: what was answered stands in the memo.
ghost use Rattle.std.specs.Prelude.{◌≡◌, ◌<◌, ◌≤◌, ◌+◌, ◌*◌, length, is_ok};
ghost use Rattle.arena.specs.Node.{node_at, child_numbers};
ghost use Rattle.arena.specs.Expression.{expression_at};
ghost use Rattle.arena.specs.Arena.{add_expression};
ghost use Rattle.arena.specs.Layout.{decode as nodes};
ghost use Rattle.arena.specs.Calls.{answered, in_cells};
ghost use Rattle.arena.specs.Inner.{Known, Walked, WalkedAll};
ghost use Rattle.classes.specs.Layout.{decode};
ghost use Rattle.classes.specs.Inner.{Held};
ghost use Rattle.normal.specs.Normal.{normal};
ghost use Rattle.normal.specs.Inner.{Ready, ReadyAll, rewriting, replacement as replacement_by, settled_by};

use crate::table::class_firsts;
use arena::Refusal;
use arena::adding::place;
use arena::cells::{node_count, row_of, wide};
use arena::memo::{note, refused};
use arena::reading::child_count;
use classes::Group;

// What replaces a node: the table's entry for one of the old nodes; a node that was added is in no class.
fn replacement(firsts: &[u32; 1024], old: usize, i: u32) -> u32
    requires { old ≤ 1024 }
    ensures { result ≡ replacement_by old firsts.now i }
{
    let e = wide(i);
    if e < old { firsts[e] } else { i }
}

// Rewrites the children of an operation, left to right, and writes their numbers into its row.
#[cycle(normalize_normalize_children_normalize_operation)]
fn normalize_children(
    cells: &mut [u32; 11265],
    firsts: &[u32; 1024],
    memo: &mut [u32; 1024],
    row: &mut [u32; 11],
    expr: u32,
    old: usize,
) -> Result<(), Refusal>
    requires { ReadyAll old firsts.now cells.old memo.old row.old expr }
    ensures { WalkedAll (rewriting old firsts.now cells.old) cells.old cells.new memo.new row.old row.new (is_ok result) }
{
    for k in 0..wide(row[2]) {
        let child = row[3 + k];
        let i = normalize(cells, firsts, memo, child, old)?;
        row[3 + k] = i;
    }
    Ok(())
}

// Rewrites an operation: its children first, then the node is looked up once.
#[cycle(normalize_normalize_children_normalize_operation)]
fn normalize_operation(
    cells: &mut [u32; 11265],
    firsts: &[u32; 1024],
    memo: &mut [u32; 1024],
    expr: u32,
    old: usize,
) -> Result<u32, Refusal>
    requires { Ready old firsts.now cells.old memo.old expr × (0 < length (child_numbers (node_at (nodes cells.old) expr))) }
    ensures { Walked (rewriting old firsts.now cells.old) cells.old cells.new memo.new expr result }
{
    let mut row = row_of(cells, wide(expr));
    normalize_children(cells, firsts, memo, &mut row, expr, old)?;
    let i = place(cells, &row)?;
    Ok(replacement(firsts, old, i))
}

// The walk at an expression: one without children is looked up at once, an operation is entered where the memo
// doesn't have it.
#[cycle(normalize_normalize_children_normalize_operation)]
pub fn normalize(
    cells: &mut [u32; 11265],
    firsts: &[u32; 1024],
    memo: &mut [u32; 1024],
    expr: u32,
    old: usize,
) -> Result<u32, Refusal>
    requires { Ready old firsts.now cells.old memo.old expr }
    ensures { Walked (rewriting old firsts.now cells.old) cells.old cells.new memo.new expr result }
{
    let e = wide(expr);
    let first = replacement(firsts, old, expr);
    if child_count(cells, e) == 0 {
        return Ok(first);
    }
    let entry = memo[e];
    if entry != 0 {
        return Ok(entry - 1);
    }
    let answer = normalize_operation(cells, firsts, memo, expr, old);
    note(memo, e, answer);
    answer
}

// What the caller is told of a walk: where it found no room 3, and every cell is as it was saved.
fn settled(
    cells: &mut [u32; 11265],
    saved: &[u32; 11265],
    answer: Result<u32, Refusal>,
) -> Result<u32, Refusal>
    ensures { (result, cells.new) ≡ settled_by saved.now cells.old answer }
{
    if refused(answer) {
        *cells = *saved;
        return Err(Refusal::ArenaFull);
    }
    answer
}

// The normal form of an expression: 3 where its missing nodes don't fit, and then every cell is as it was.
pub fn normalize_in(cells: &mut [u32; 11265], g: Group, expr: u32) -> Result<u32, Refusal>
    requires { Known cells.old expr × Held (nodes cells.old) g }
    ensures { (result, cells.new) ≡ in_cells (answered (nodes cells.old) (add_expression (normal (nodes cells.old) (decode g) (expression_at (nodes cells.old) expr)) (nodes cells.old))) }
{
    let old = node_count(cells);
    let firsts = class_firsts(g, old);
    let saved = *cells;
    let mut memo = [0u32; 1024];
    let answer = normalize(cells, &firsts, &mut memo, expr, old);
    settled(cells, &saved, answer)
}
