// Shifting the orderings of a list that is checked already.
ghost use Rattle.std.specs.Prelude.{◌≡◌, ◌<◌, ◌+◌, ◌*◌};
ghost use Rattle.arena.specs.Layout.{decode as nodes};
ghost use Rattle.arena.specs.Calls.{in_cells};
ghost use Rattle.orderings.specs.Ordering.{expr_of, options_of};
ghost use Rattle.orderings.specs.Layout.{keys_of, decode};
ghost use Rattle.ordering_joins.specs.Calls.{offset_list};
ghost use Rattle.ordering_joins.specs.Inner.{LowKeys, LowList, keys_tabled, lists_tabled, ListThere, ReadyKeys, ShiftedKeys, ReadyLists, ShiftedLists};

use arena::Refusal;
use arena::cells::node_count;
use orderings::checking::expr_of;
use orderings::making::{append, no_orderings, nothing, refusal};
use orderings::pushing::push;
use orderings::{Listed, Ordering, Orderings};
use shifting::shifting::{lift_of, movable, shift};

// Every key's expression can move, by the table of the nodes.
fn keys_move(table: &[bool; 1024], o: Ordering) -> bool
    requires { LowKeys o }
    ensures { result ≡ keys_tabled table.now (keys_of o) }
{
    (0..o.size).all(|k| table[expr_of(o.keys[k])])
}

// The same for all orderings.
fn lists_move(table: &[bool; 1024], g: Orderings) -> bool
    requires { LowList g }
    ensures { result ≡ lists_tabled table.now (decode g) }
{
    (0..g.count).all(|i| keys_move(table, g.list[i]))
}

// The expression of a key, as the arena's calls take it.
#[tactic(auto, unfolding(orderings::specs::Ordering::expr_of))]
fn expr_number(key: u16) -> u32
    ensures { result ≡ expr_of key }
{
    u32::from(key / 4)
}

// An expression with the options of a key.
#[tactic(auto, unfolding(orderings::specs::Ordering::options_of))]
fn with_options(e: u32, key: u16) -> u16
    requires { e < 1024 }
    ensures { result ≡ e * 4 + options_of key }
{
    (e * 4) as u16 + key % 4
}

// The ordering that is built from the shifted keys; refused where the arena has no room.
fn shift_keys(
    cells: &mut [u32; 11265],
    memo: &mut [u32; 1024],
    o: Ordering,
    lift: u32,
) -> Result<Ordering, Refusal>
    requires { ReadyKeys lift cells.old memo.old o }
    ensures { ShiftedKeys lift cells.old cells.new memo.new o result }
{
    let mut out = nothing();
    for k in 0..o.size {
        let key = o.keys[k];
        let e = shift(cells, memo, expr_number(key), lift)?;
        out = push(out, with_options(e, key))?;
    }
    Ok(out)
}

// All orderings, shifted; refused where the arena has no room.
fn shift_lists(
    cells: &mut [u32; 11265],
    memo: &mut [u32; 1024],
    g: Orderings,
    lift: u32,
) -> Result<Orderings, Refusal>
    requires { ReadyLists lift cells.old memo.old g }
    ensures { ShiftedLists lift cells.old cells.new g result }
{
    let mut list = no_orderings();
    for i in 0..g.count {
        let one = shift_keys(cells, memo, g.list[i], lift)?;
        list = append(list, one);
    }
    Ok(list)
}

// Shifts the orderings by an offset: 10 where a column leaves its bounds, 3 where there is no room, and then list and
// cells are as they were.
pub fn offset_in(cells: &mut [u32; 11265], g: Orderings, offset: i64) -> Listed
    requires { ListThere cells.old g }
    ensures { (result, cells.new) ≡ in_cells (offset_list offset g (nodes cells.old)) }
{
    let lift = lift_of(offset);
    let n = node_count(cells);
    let table = movable(cells, n, lift);
    if !lists_move(&table, g) {
        return refusal(Refusal::IndexOutOfRange, g);
    }
    let saved = *cells;
    let mut memo = [0u32; 1024];
    match shift_lists(cells, &mut memo, g, lift) {
        Ok(list) => Listed { done: Ok(()), list },
        Err(_) => {
            *cells = saved;
            refusal(Refusal::ArenaFull, g)
        }
    }
}
