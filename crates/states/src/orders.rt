// An ordering and a list of orderings in their cells.
ghost use Rattle.std.specs.Prelude.{◌∷◌, ◌++◌, ◌≡◌, ◌+◌, ◌<◌, ◌≤◌, length, take};
ghost use Rattle.states.specs.Cells.{part};
ghost use Rattle.states.specs.Orders.{ordering_from, ordering_cells, orderings_from, orderings_cells, stored_list};
ghost use Rattle.states.specs.Inner.{ListFits, ListFitsIfDone};

use crate::numbers::{short, widened};
use crate::{ORDERING_CELLS, ORDERINGS_CELLS, ORDERINGS_COUNT, ORDERINGS_LIST};
use orderings::{Listed, Ordering, Orderings};
use std::array;

// The 16 keys from a cell on.
pub fn keys_from(cells: &[u16], at: usize) -> [u16; 16]
    requires { at + 16 ≤ length cells.now }
    ensures { result ≡ part cells.now at 16 }
{
    let mut keys = [0u16; 16];
    keys.copy_from_slice(&cells[at..at + 16]);
    keys
}

// The ordering in the cells from one on.
fn ordering_from(cells: &[u16; ORDERINGS_CELLS], at: usize) -> Ordering
    requires { at + 17 ≤ 545 }
    ensures { result ≡ ordering_from cells.now at }
{
    Ordering {
        size: widened(cells[at]),
        keys: keys_from(cells, at + 1),
    }
}

// The list in its cells.
pub fn load_orderings(cells: &[u16; ORDERINGS_CELLS]) -> Orderings
    ensures { result ≡ orderings_from cells.now }
{
    Orderings {
        count: widened(cells[ORDERINGS_COUNT]),
        list: array::from_fn(|i| ordering_from(cells, ORDERINGS_LIST + ORDERING_CELLS * i)),
    }
}

// Writes 16 keys from a cell on.
pub fn put_keys(keys: [u16; 16], cells: &mut [u16], at: usize)
    requires { at + 16 ≤ length cells.old }
    ensures { take (at + 16) cells.new ≡ take at cells.old ++ keys }
{
    cells[at..at + 16].copy_from_slice(&keys);
}

// Writes an ordering into the cells from one on.
pub fn put_ordering(ordering: Ordering, cells: &mut [u16], at: usize)
    requires { (at + 17 ≤ length cells.old) × (ordering.size < 65536) }
    ensures { take (at + 17) cells.new ≡ take at cells.old ++ ordering_cells ordering }
{
    let keys = ordering.keys;
    cells[at] = short(ordering.size);
    put_keys(keys, cells, at + 1);
}

// Writes a list into its cells.
fn put_orderings(orderings: Orderings, cells: &mut [u16; ORDERINGS_CELLS])
    requires { ListFits orderings }
    ensures { cells.new ≡ orderings_cells orderings }
{
    cells[ORDERINGS_COUNT] = short(orderings.count);
    for i in 0..32 {
        put_ordering(
            orderings.list[i],
            cells,
            ORDERINGS_LIST + ORDERING_CELLS * i,
        );
    }
}

// Writes the list that a call hands back, unless it was refused. The answer is the refusal's number or 0.
#[tactic(auto, unfolding(crate::specs::Orders::stored_list, crate::specs::Cells::told))]
pub fn store_orderings(listed: Listed, cells: &mut [u16; ORDERINGS_CELLS]) -> u32
    requires { ListFitsIfDone listed }
    ensures { (result, cells.new) ≡ stored_list cells.old listed }
{
    match listed.done {
        Ok(()) => {
            let list = listed.list;
            put_orderings(list, cells);
            0
        }
        Err(why) => u32::from(why),
    }
}
