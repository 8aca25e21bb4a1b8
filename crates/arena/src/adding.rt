// Adding nodes to an arena that is checked already.
ghost use Rattle.std.specs.Prelude.{◌≡◌, ◌≤◌, ◌<◌, ◌+◌, ◌*◌, ltb, length, get_or, set};
ghost use Rattle.std.proofs.Math.Seq.{paste};
ghost use Rattle.laws.specs.Tests.{each};
ghost use Rattle.arena.specs.Node.{column, literal, operation};
ghost use Rattle.arena.specs.Arena.{add};
ghost use Rattle.arena.specs.Layout.{row as row_of_node, count, node_of, decode};
ghost use Rattle.arena.specs.Calls.{answered, in_cells};
ghost use Rattle.arena.specs.Inner.{Placeable, appended};

use crate::Refusal;
use crate::cells::{narrow, node_count, wide};
use crate::checking::row_below;

// The row of a column.
pub fn column_row(name: u16, index: u16) -> [u32; 11]
    ensures { result ≡ row_of_node (column name index) }
{
    [
        1,
        u32::from(name) * 65536 + u32::from(index),
        0,
        0,
        0,
        0,
        0,
        0,
        0,
        0,
        0,
    ]
}

// The row of a literal.
pub fn literal_row(value: u32) -> [u32; 11]
    ensures { result ≡ row_of_node (literal value) }
{
    [2, value, 0, 0, 0, 0, 0, 0, 0, 0, 0]
}

// The row of an operation.
pub fn operation_row(label: u32, children: &[u32]) -> [u32; 11]
    requires { length children.now ≤ 8 }
    ensures { result ≡ row_of_node (operation label children.now) }
{
    let n = children.len();
    let mut row = [3, label, n as u32, 0, 0, 0, 0, 0, 0, 0, 0];
    row[3..3 + n].copy_from_slice(children);
    row
}

// Each of these numbers is below n.
pub fn all_below(numbers: &[u32], n: usize) -> bool
    ensures { result ≡ each (λ k. ltb (get_or numbers.now k 0) n) (length numbers.now) }
{
    numbers.iter().all(|number| wide(*number) < n)
}

// Writes a row into the cells from a place on.
fn write_row(cells: &mut [u32; 11265], at: usize, row: &[u32; 11])
    requires { (at + 11 ≤ 11265) × ((length cells.old ≡ 11265) × (length row.now ≡ 11)) }
    ensures { cells.new ≡ paste cells.old at row.now 11 }
{
    cells[at..at + 11].copy_from_slice(row);
}

// A row that no node has becomes the next node, if one is left.
fn append(cells: &mut [u32; 11265], row: &[u32; 11]) -> Result<u32, Refusal>
    requires { (count cells.old ≤ 1024) × ((length cells.old ≡ 11265) × (length row.now ≡ 11)) }
    ensures { (result, cells.new) ≡ appended cells.old row.now }
{
    let n = node_count(cells);
    if n < 1024 {
        write_row(cells, 1 + 11 * n, row);
        cells[0] = narrow(n + 1);
        Ok(narrow(n))
    } else {
        Err(Refusal::ArenaFull)
    }
}

// Adds a node by its row: an equal node answers its old number, also in a full arena.
pub fn place(cells: &mut [u32; 11265], row: &[u32; 11]) -> Result<u32, Refusal>
    requires { Placeable cells.old row.now }
    ensures { (result, cells.new) ≡ in_cells (answered (decode cells.old) (add (node_of row.now) (decode cells.old))) }
{
    let n = node_count(cells);
    match row_below(cells, n, row) {
        Some(i) => Ok(narrow(i)),
        None => append(cells, row),
    }
}
