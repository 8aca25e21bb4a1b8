// A dependency map in its cells.
ghost use Rattle.std.specs.Prelude.{◌++◌, ◌≡◌, ◌+◌, ◌-◌, ◌≤◌, length, take};
ghost use Rattle.states.specs.Maps.{node_from, node_cells, target_cell, map_from, map_cells, stored_map};
ghost use Rattle.states.specs.Inner.{NodeFits, MapFits, MapFitsIfDone};

use crate::numbers::{short, widened};
use crate::orders::{keys_from, put_keys};
use crate::{
    MAP_CELLS, MAP_COUNT, MAP_LIST, MAP_NODE_CELLS, MAP_NODE_DEPENDENCIES, MAP_NODE_SIZE,
    MAP_NODE_TARGET,
};
use dependencies::{DependencyMap, DependencyNode, Inserted};
use std::array;

// The target of a cell: one less, where there is one.
fn target_from(cell: u16) -> u16
    ensures { result ≡ cell - 1 }
{
    cell.saturating_sub(1)
}

// The key with its target and its dependencies in the cells from one on.
fn node_from(cells: &[u16; MAP_CELLS], at: usize) -> DependencyNode
    requires { at + 19 ≤ 1217 }
    ensures { result ≡ node_from cells.now at }
{
    let dependencies = keys_from(cells, at + MAP_NODE_DEPENDENCIES);
    let target = cells[at + MAP_NODE_TARGET];
    DependencyNode {
        key: cells[at],
        projected: target != 0,
        target: target_from(target),
        size: widened(cells[at + MAP_NODE_SIZE]),
        dependencies: dependencies,
    }
}

// The map in its cells.
pub fn load_map(cells: &[u16; MAP_CELLS]) -> DependencyMap
    ensures { result ≡ map_from cells.now }
{
    DependencyMap {
        count: widened(cells[MAP_COUNT]),
        list: array::from_fn(|i| node_from(cells, MAP_LIST + MAP_NODE_CELLS * i)),
    }
}

// The cell of a target: one more, or 0 where there is none.
fn target_cell(node: DependencyNode) -> u16
    requires { NodeFits node }
    ensures { result ≡ target_cell node }
{
    if node.projected { node.target + 1 } else { 0 }
}

// Writes a key with its target and its dependencies into the cells from one on.
fn put_node(node: DependencyNode, cells: &mut [u16], at: usize)
    requires { (at + 19 ≤ length cells.old) × NodeFits node }
    ensures { take (at + 19) cells.new ≡ take at cells.old ++ node_cells node }
{
    let dependencies = node.dependencies;
    cells[at] = node.key;
    cells[at + MAP_NODE_TARGET] = target_cell(node);
    cells[at + MAP_NODE_SIZE] = short(node.size);
    put_keys(dependencies, cells, at + MAP_NODE_DEPENDENCIES);
}

// Writes a map into its cells.
fn put_map(map: DependencyMap, cells: &mut [u16; MAP_CELLS])
    requires { MapFits map }
    ensures { cells.new ≡ map_cells map }
{
    cells[MAP_COUNT] = short(map.count);
    for i in 0..64 {
        put_node(map.list[i], cells, MAP_LIST + MAP_NODE_CELLS * i);
    }
}

// Writes the map that a call hands back, unless it was refused. The answer is the refusal's number or 0.
#[tactic(auto, unfolding(crate::specs::Maps::stored_map, crate::specs::Cells::told))]
pub fn store_map(inserted: Inserted, cells: &mut [u16; MAP_CELLS]) -> u32
    requires { MapFitsIfDone inserted }
    ensures { (result, cells.new) ≡ stored_map cells.old inserted }
{
    match inserted.done {
        Ok(()) => {
            let map = inserted.map;
            put_map(map, cells);
            0
        }
        Err(why) => u32::from(why),
    }
}
