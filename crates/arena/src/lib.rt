// The arena: expressions as numbered nodes in lent cells (document 01, "Expressions").
//
// A node is a column (a name number and an index, 16 bits each), a literal (a 32-bit value number) or an
// operation (a 32-bit label and 0 to 8 children). Nodes are numbered from 0 in order of arrival; a child's
// number is lower than its parent's; no two nodes are equal, so that two expressions are the same exactly
// when their numbers are. The cells are the caller's: each function here checks them for itself, and a
// refusal gives its number of document 01's table and leaves every cell as it was.
//
// The functions of this file are the public calls and ask nothing of their caller. Those of the modules
// serve the crates above, which hold an arena that is checked already, and say in `requires` what they ask.
#![tactic(auto)]

pub mod adding;
pub mod cells;
pub mod checking;
pub mod memo;
pub mod reading;
pub mod refusing;

ghost use Rattle.std.specs.Prelude.{◌≡◌, Err};
ghost use Rattle.arena.specs.Refusals.{outcome};
ghost use Rattle.arena.specs.declared.Refusal.TheVariants.{BadState};
ghost use Rattle.arena.specs.Calls.{checked, lent, on_lent, add_column, add_literal, add_operation, read_node, read_child};

use adding::{all_below, column_row, literal_row, operation_row, place};
use cells::{node_count, wide};
use checking::lawful_arena;
use reading::{child_count, child_in, read_in};

// Why a call is refused: a number for each case stands in the table of refusals.
#[derive(Clone, Copy, Debug, PartialEq, Eq)]
pub enum Refusal {
    UnknownExpression,
    TooManyChildren,
    ArenaFull,
    GroupFull,
    TooLarge,
    UnknownKey,
    NoTarget,
    OutputShort,
    Malformed,
    IndexOutOfRange,
    BadState,
    BadNumber,
}

// What a node is: a column's name and index, a literal's value, an operation's label and how many children it has.
#[derive(Clone, Copy, Debug, PartialEq, Eq)]
pub enum Read {
    Column(u16, u16),
    Literal(u32),
    Operation(u32, u32),
}

// The check of a lent arena. Refusal: 11, where the cells are no arena.
pub fn check_arena(cells: &[u32; 11265]) -> Result<(), Refusal>
    ensures { result ≡ outcome (checked cells.now) }
{
    if lawful_arena(cells) {
        Ok(())
    } else {
        Err(Refusal::BadState)
    }
}

// Adds a column. Refusals: 11, 3.
pub fn add_column(cells: &mut [u32; 11265], name: u16, index: u16) -> Result<u32, Refusal>
    ensures { (result, cells.new) ≡ lent (add_column name index) cells.old }
{
    check_arena(cells)?;
    let row = column_row(name, index);
    place(cells, &row)
}

// Adds a literal. Refusals: 11, 3.
pub fn add_literal(cells: &mut [u32; 11265], value: u32) -> Result<u32, Refusal>
    ensures { (result, cells.new) ≡ lent (add_literal value) cells.old }
{
    check_arena(cells)?;
    let row = literal_row(value);
    place(cells, &row)
}

// Adds an operation over children that are there. Refusals: 11, 1, 2, 3.
pub fn add_operation(cells: &mut [u32; 11265], label: u32, children: &[u32]) -> Result<u32, Refusal>
    ensures { (result, cells.new) ≡ lent (add_operation label children.now) cells.old }
{
    check_arena(cells)?;
    let n = node_count(cells);
    if !all_below(children, n) {
        return Err(Refusal::UnknownExpression);
    }
    if 8 < children.len() {
        return Err(Refusal::TooManyChildren);
    }
    let row = operation_row(label, children);
    place(cells, &row)
}

// Reads a node. Refusals: 11, 1.
pub fn read_node(cells: &[u32; 11265], expr: u32) -> Result<Read, Refusal>
    ensures { result ≡ on_lent (Err BadState) (read_node expr) cells.now }
{
    check_arena(cells)?;
    let n = node_count(cells);
    let e = wide(expr);
    if n <= e {
        return Err(Refusal::UnknownExpression);
    }
    Ok(read_in(cells, e))
}

// Reads the child of a node at a place counted from 0. A place that the node doesn't have is answered
// with None. Refusals: 11, 1.
pub fn read_child(cells: &[u32; 11265], expr: u32, place: u32) -> Result<Option<u32>, Refusal>
    ensures { result ≡ on_lent (Err BadState) (read_child expr place) cells.now }
{
    check_arena(cells)?;
    let n = node_count(cells);
    let e = wide(expr);
    if n <= e {
        return Err(Refusal::UnknownExpression);
    }
    let k = wide(place);
    if child_count(cells, e) <= k {
        return Ok(None);
    }
    Ok(Some(child_in(cells, e, k)))
}
