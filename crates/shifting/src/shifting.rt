// Shifting expressions of an arena that is checked already.
//
// Inside, an offset is a lift: 65,535 more than the offset, so that numbers stay unsigned. An index moves to
// index + lift - 65,535. An offset that no index can follow is the lift 200,000, which moves none into 0..65,535.
ghost use Rattle.std.specs.Prelude.{Bool, true, false, ◌≡◌, ℕ, ◌≤◌, ◌<◌, ◌+◌, ◌*◌, ◌%◌, length, get_or, is_some, is_ok};
ghost use Rattle.laws.specs.Tests.{each};
ghost use Rattle.arena.specs.Node.{node_at, child_numbers};
ghost use Rattle.arena.specs.Expression.{expression_at};
ghost use Rattle.shifting.specs.Shift.{moved, can_move};
ghost use Rattle.arena.specs.Layout.{cell_of, count, decode};
ghost use Rattle.arena.specs.Calls.{in_cells};
ghost use Rattle.shifting.specs.Calls.{shifted_outcome};
ghost use Rattle.arena.specs.Inner.{Holds, Known, Grew, Walked, WalkedAll};
ghost use Rattle.shifting.specs.Inner.{Ready, ReadyAll, lifted, shifted_by};

use arena::Refusal;
use arena::adding::place;
use arena::cells::{cell_of, row_of, wide};
use arena::memo::{note, refused};
use arena::reading::{child_count, child_in};

// The lift of an offset.
pub fn lift_of(offset: i64) -> u32
    ensures { (result ≤ 200000) × ((i : ℕ) → i < 65536 → moved offset i ≡ lifted result i) }
{
    if offset < -65535 || 65535 < offset {
        return 200000;
    }
    (offset + 65535) as u32
}

// An index stays in 0..65,535 when it moves.
fn index_moves(index: u32, lift: u32) -> bool
    requires { (index < 65536) × (lift ≤ 200000) }
    ensures { result ≡ is_some (lifted lift index) }
{
    65535 <= index + lift && index + lift < 131071
}

// The children of node e can move, by the table of the nodes before it.
fn children_move(cells: &[u32; 11265], table: &[bool; 1024], e: usize) -> bool
    requires { Known cells.now e }
    ensures { result ≡ each (λ k. get_or table.now (get_or (child_numbers (node_at (decode cells.now) e)) k 0) false) (length (child_numbers (node_at (decode cells.now) e))) }
{
    (0..child_count(cells, e)).all(|k| table[wide(child_in(cells, e, k))])
}

// Node e can move, by the table of the nodes before it.
fn node_moves(cells: &[u32; 11265], table: &[bool; 1024], e: usize, lift: u32) -> bool
    requires { (Known cells.now e × (lift ≤ 200000)) × ((j : ℕ) → j < e → get_or table.now j false ≡ can_move (lifted lift) (expression_at (decode cells.now) j)) }
    ensures { result ≡ can_move (lifted lift) (expression_at (decode cells.now) e) }
{
    if cell_of(cells, e, 0) == 1 {
        index_moves(cell_of(cells, e, 1) % 65536, lift)
    } else {
        children_move(cells, table, e)
    }
}

// Which of the first n nodes can move. Each is looked at once.
pub fn movable(cells: &[u32; 11265], n: usize, lift: u32) -> [bool; 1024]
    requires { (Holds cells.now × (n ≤ count cells.now)) × (lift ≤ 200000) }
    ensures { (j : ℕ) → j < n → get_or result j false ≡ can_move (lifted lift) (expression_at (decode cells.now) j) }
{
    let mut table = [false; 1024];
    for i in 0..n {
        table[i] = node_moves(cells, &table, i, lift);
    }
    table
}

// Every column of expression e can move. Each node up to e is looked at once.
pub fn can_move(cells: &[u32; 11265], e: usize, lift: u32) -> bool
    requires { Known cells.now e × (lift ≤ 200000) }
    ensures { result ≡ can_move (lifted lift) (expression_at (decode cells.now) e) }
{
    let table = movable(cells, e, lift);
    node_moves(cells, &table, e, lift)
}

// Adds the column that node e, a column, moves to.
fn shift_column(cells: &mut [u32; 11265], e: usize, lift: u32) -> Result<u32, Refusal>
    requires { (Known cells.old e × (lift ≤ 200000)) × ((cell_of cells.old e 0 ≡ 1) × (can_move (lifted lift) (expression_at (decode cells.old) e) ≡ true)) }
    ensures { Grew (shifted_by lift (expression_at (decode cells.old) e)) cells.old cells.new result }
{
    let mut row = row_of(cells, e);
    let payload = row[1];
    let index = payload % 65536;
    row[1] = payload - index + (index + lift - 65535);
    place(cells, &row)
}

// Shifts the children of an operation, left to right, and writes their numbers into its row.
#[cycle(shift_shift_children_shift_new)]
fn shift_children(
    cells: &mut [u32; 11265],
    memo: &mut [u32; 1024],
    row: &mut [u32; 11],
    expr: u32,
    lift: u32,
) -> Result<(), Refusal>
    requires { ReadyAll lift cells.old memo.old row.old expr }
    ensures { WalkedAll (shifted_by lift) cells.old cells.new memo.new row.old row.new (is_ok result) }
{
    for k in 0..wide(row[2]) {
        row[3 + k] = shift(cells, memo, row[3 + k], lift)?;
    }
    Ok(())
}

// Shifts an expression that the memo doesn't have: by kind of its node.
#[cycle(shift_shift_children_shift_new)]
fn shift_new(
    cells: &mut [u32; 11265],
    memo: &mut [u32; 1024],
    expr: u32,
    lift: u32,
) -> Result<u32, Refusal>
    requires { Ready lift cells.old memo.old expr }
    ensures { Walked (shifted_by lift) cells.old cells.new memo.new expr result }
{
    let e = wide(expr);
    match cell_of(cells, e, 0) {
        1 => shift_column(cells, e, lift),
        2 => Ok(expr),
        _ => {
            let mut row = row_of(cells, e);
            shift_children(cells, memo, &mut row, expr, lift)?;
            place(cells, &row)
        }
    }
}

// Shifts an expression, each node once: what was answered stands in the memo.
#[cycle(shift_shift_children_shift_new)]
pub fn shift(
    cells: &mut [u32; 11265],
    memo: &mut [u32; 1024],
    expr: u32,
    lift: u32,
) -> Result<u32, Refusal>
    requires { Ready lift cells.old memo.old expr }
    ensures { Walked (shifted_by lift) cells.old cells.new memo.new expr result }
{
    let e = wide(expr);
    let entry = memo[e];
    if entry != 0 {
        return Ok(entry - 1);
    }
    let answer = shift_new(cells, memo, expr, lift);
    note(memo, e, answer);
    answer
}

// Shifts an expression by an offset: 10 where a column leaves its bounds, 3 where there is no room, and then
// every cell is as it was.
pub fn shift_in(cells: &mut [u32; 11265], expr: u32, offset: i64) -> Result<u32, Refusal>
    requires { Known cells.old expr }
    ensures { (result, cells.new) ≡ in_cells (shifted_outcome expr offset (decode cells.old)) }
{
    let lift = lift_of(offset);
    if !can_move(cells, wide(expr), lift) {
        return Err(Refusal::IndexOutOfRange);
    }
    let saved = *cells;
    let mut memo = [0u32; 1024];
    let answer = shift(cells, &mut memo, expr, lift);
    if refused(answer) {
        *cells = saved;
        return Err(Refusal::ArenaFull);
    }
    answer
}
