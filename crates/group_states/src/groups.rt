// A group in its cells.
ghost use Rattle.std.specs.Prelude.{[], ◌∷◌, ◌++◌, ◌≡◌, ◌+◌, ◌≤◌, length, take};
ghost use Rattle.states.specs.Cells.{part};
ghost use Rattle.group_states.specs.Groups.{group_from, group_cells, stored_group};
ghost use Rattle.group_states.specs.Inner.{AllBelow, GroupFits, FitsIfDone};

use arena::cells::wide;
use classes::{Changed, Group};
use states::numbers::narrow;
use states::{
    GROUP_CELLS, GROUP_COUNT, GROUP_FLAVOURS, GROUP_LIMIT, GROUP_MEMBERS, GROUP_SIZES, GROUP_USED,
    GROUP_VALUES,
};
use std::array;

// The sizes of the classes.
fn sizes_from(cells: &[u32; GROUP_CELLS]) -> [usize; 64]
    ensures { result ≡ part cells.now 3 64 }
{
    array::from_fn(|k| wide(cells[GROUP_SIZES + k]))
}

// The table of N numbers from a cell on.
fn table_from<const N: usize>(cells: &[u32; GROUP_CELLS], at: usize) -> [u32; N]
    requires { at + N ≤ 451 }
    ensures { result ≡ part cells.now at N }
{
    let mut numbers = [0u32; N];
    numbers.copy_from_slice(&cells[at..at + N]);
    numbers
}

// The group in its cells.
pub fn load_group(cells: &[u32; GROUP_CELLS]) -> Group
    ensures { result ≡ group_from cells.now }
{
    Group {
        limit: wide(cells[GROUP_LIMIT]),
        count: wide(cells[GROUP_COUNT]),
        used: wide(cells[GROUP_USED]),
        sizes: sizes_from(cells),
        flavours: table_from(cells, GROUP_FLAVOURS),
        values: table_from(cells, GROUP_VALUES),
        members: table_from(cells, GROUP_MEMBERS),
    }
}

// Writes the first three cells.
fn put_counts(limit: u32, count: u32, used: u32, cells: &mut [u32])
    requires { 3 ≤ length cells.old }
    ensures { take 3 cells.new ≡ limit ∷ count ∷ used ∷ [] }
{
    cells[GROUP_LIMIT] = limit;
    cells[GROUP_COUNT] = count;
    cells[GROUP_USED] = used;
}

// Writes sizes that fit their cells.
fn put_widths(sizes: [usize; 64], cells: &mut [u32])
    requires { (67 ≤ length cells.old) × AllBelow 4294967296 sizes }
    ensures { take 67 cells.new ≡ take 3 cells.old ++ sizes }
{
    for k in 0..64 {
        cells[GROUP_SIZES + k] = narrow(sizes[k]);
    }
}

// Writes numbers from a cell on.
fn put_numbers(numbers: &[u32], cells: &mut [u32], at: usize)
    requires { at + length numbers.now ≤ length cells.old }
    ensures { take (at + length numbers.now) cells.new ≡ take at cells.old ++ numbers.now }
{
    cells[at..at + numbers.len()].copy_from_slice(numbers);
}

// Writes the sizes of the classes.
fn put_sizes(sizes: [usize; 64], cells: &mut [u32; GROUP_CELLS])
    requires { AllBelow 4294967296 sizes }
    ensures { take 67 cells.new ≡ take 3 cells.old ++ sizes }
{
    put_widths(sizes, cells);
}

// Writes a table of 64 numbers from a cell on.
fn put_table(numbers: [u32; 64], cells: &mut [u32; GROUP_CELLS], at: usize)
    requires { at + 64 ≤ 451 }
    ensures { take (at + 64) cells.new ≡ take at cells.old ++ numbers }
{
    put_numbers(&numbers, cells, at);
}

// Writes the members of all classes.
fn put_members(members: [u32; 256], cells: &mut [u32; GROUP_CELLS])
    ensures { cells.new ≡ take 195 cells.old ++ members }
{
    put_numbers(&members, cells, GROUP_MEMBERS);
}

// Writes a group into its cells.
fn put_group(group: Group, cells: &mut [u32; GROUP_CELLS])
    requires { GroupFits group }
    ensures { cells.new ≡ group_cells group }
{
    put_counts(
        narrow(group.limit),
        narrow(group.count),
        narrow(group.used),
        cells,
    );
    put_sizes(group.sizes, cells);
    put_table(group.flavours, cells, GROUP_FLAVOURS);
    put_table(group.values, cells, GROUP_VALUES);
    put_members(group.members, cells);
}

// Writes the group that a call hands back, unless it was refused. The answer is the refusal's number or 0.
#[tactic(auto, unfolding(crate::specs::Groups::stored_group, states::specs::Cells::told))]
pub fn store_group(changed: Changed, cells: &mut [u32; GROUP_CELLS]) -> u32
    requires { FitsIfDone changed }
    ensures { (result, cells.new) ≡ stored_group cells.old changed }
{
    match changed.answer {
        Ok(_) => {
            let group = changed.group;
            put_group(group, cells);
            0
        }
        Err(why) => u32::from(why),
    }
}
