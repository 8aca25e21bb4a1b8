// The dependency map (document 01, "Dependencies"): keys with a target, if they have one, and the keys that they depend
// on.
//
// The functions of this file are the public calls and ask nothing of their caller: each checks the lent arena and the
// map for itself, and a refusal gives its number of document 01's table and hands the map back as it was. Those of the
// modules serve the crates above, which hold an arena and a map that are checked already.
#![tactic(auto)]

pub mod checking;
pub mod inserting;

ghost use Rattle.std.specs.Prelude.{[], ◌≡◌};
ghost use Rattle.arena.specs.Refusals.{outcome};
ghost use Rattle.dependencies.specs.Layout.{encode};
ghost use Rattle.dependencies.specs.Calls.{map_number, insert_answer};

use arena::Refusal;
use checking::{check_insert, check_map};
use inserting::insert_in;

// A key of the map: the key as expression · 4 + options, whether it has a target, the target likewise, how many
// dependencies it has, and these; unused places are 0.
// A flag and a number stay in place of an Option: rule 11 for a lent map speaks of a number where there is no target.
// Flat arrays with counts: a state crosses to its callers as these numbers, and the project has no heap.
#[derive(Clone, Copy)]
pub struct DependencyNode {
    pub key: u16,
    pub projected: bool,
    pub target: u16,
    pub size: usize,
    pub dependencies: [u16; 16],
}

// A dependency map: how many keys it has, and the keys in order of arrival; unused places are 0.
// Flat arrays with counts: a state crosses to its callers as these numbers, and the project has no heap.
#[derive(Clone, Copy)]
pub struct DependencyMap {
    pub count: usize,
    pub list: [DependencyNode; 64],
}

// A key that is given: its expression and its options.
#[derive(Clone, Copy, Debug, PartialEq, Eq)]
pub struct Key {
    pub expr: u32,
    pub options: u32,
}

// What an insert answers: whether it is done, and the map; beside a refusal the map that was given.
#[derive(Clone, Copy)]
pub struct Inserted {
    pub done: Result<(), Refusal>,
    pub map: DependencyMap,
}

// The empty map.
pub fn open_map() -> DependencyMap
    ensures { result ≡ encode [] }
{
    DependencyMap {
        count: 0,
        list: [inserting::nothing(); 64],
    }
}

// The check of a lent map: done, or refusal 11 or 1, whichever is first.
pub fn check(cells: &[u32; 11265], map: DependencyMap) -> Result<(), Refusal>
    ensures { result ≡ outcome (map_number cells.now map) }
{
    check_map(cells, map)
}

// Inserts a key with its target and a dependency, if there are such. A key that is there keeps its first target, and a
// dependency is added once. Refusals: 12, 11, 1, 5.
pub fn insert(
    cells: &[u32; 11265],
    map: DependencyMap,
    expr: u32,
    options: u32,
    target: Option<Key>,
    dependency: Option<Key>,
) -> Inserted
    ensures { result ≡ insert_answer cells.now map expr options target dependency }
{
    match check_insert(cells, map, expr, options, target, dependency) {
        Ok(()) => insert_in(map, expr, options, target, dependency),
        Err(why) => inserting::refusal(why, map),
    }
}
