// Reading nodes of an arena that is checked already.
ghost use Rattle.std.specs.Prelude.{◌≡◌, ◌<◌, length, get_or};
ghost use Rattle.arena.specs.Node.{node_at, child_numbers};
ghost use Rattle.arena.specs.Layout.{decode};
ghost use Rattle.arena.specs.Calls.{read_of};
ghost use Rattle.arena.specs.Inner.{Known};

use crate::Read;
use crate::cells::{cell_of, wide};

// What node e is.
pub fn read_in(cells: &[u32; 11265], e: usize) -> Read
    requires { Known cells.now e }
    ensures { result ≡ read_of (node_at (decode cells.now) e) }
{
    let kind = cell_of(cells, e, 0);
    let payload = cell_of(cells, e, 1);
    match kind {
        1 => Read::Column((payload / 65536) as u16, (payload % 65536) as u16),
        2 => Read::Literal(payload),
        _ => Read::Operation(payload, cell_of(cells, e, 2)),
    }
}

// How many children node e has.
pub fn child_count(cells: &[u32; 11265], e: usize) -> usize
    requires { Known cells.now e }
    ensures { result ≡ length (child_numbers (node_at (decode cells.now) e)) }
{
    wide(cell_of(cells, e, 2))
}

// Child k of node e.
pub fn child_in(cells: &[u32; 11265], e: usize, k: usize) -> u32
    requires { Known cells.now e × (k < length (child_numbers (node_at (decode cells.now) e))) }
    ensures { result ≡ get_or (child_numbers (node_at (decode cells.now) e)) k 0 }
{
    cell_of(cells, e, 3 + k)
}
