// The calls on dependency maps.
ghost use Rattle.std.specs.Prelude.{◌≡◌};
ghost use Rattle.dependencies.specs.Calls.{map_number, insert_answer};
ghost use Rattle.dependency_orderings.specs.Calls.{prefix_answer, generate_answer};
ghost use Rattle.states.specs.Maps.{map_from, stored_map};
ghost use Rattle.answers.specs.Answers.{on_first, enumerated_in, given_from};

use answers::{given_from, put_enumerated};
use arena::refusing::number_of;
use states::maps::{load_map, store_map};

// The check of a dependency map over an arena. Refusals: 11, 1.
pub fn galthumir_check_map(arena: &[u32; 11265], map: &[u16; 1217]) -> u32
    ensures { result ≡ map_number arena.now (map_from map.now) }
{
    number_of(dependencies::check(arena, load_map(map)))
}

// Inserts a key with its target and a dependency, each of which may be none. Refusals: 12, 11, 1, 5.
pub fn galthumir_insert(
    arena: &[u32; 11265],
    map: &mut [u16; 1217],
    expr: u32,
    options: u32,
    target_expr: u32,
    target_options: u32,
    dependency_expr: u32,
    dependency_options: u32,
) -> u32
    ensures { (result, map.new) ≡ stored_map map.old (insert_answer arena.now (map_from map.old) expr options (given_from target_expr target_options) (given_from dependency_expr dependency_options)) }
{
    let inserted = dependencies::insert(
        arena,
        load_map(map),
        expr,
        options,
        given_from(target_expr, target_options),
        given_from(dependency_expr, dependency_options),
    );
    store_map(inserted, map)
}

// Enumerates the prefix orderings of a key. Refusals: 12, 11, 1, 6, 7, 5, 8.
pub fn galthumir_construct_prefix_orderings(
    arena: &[u32; 11265],
    map: &[u16; 1217],
    expr: u32,
    options: u32,
    output: &mut [u16],
    answer: &mut [usize; 2],
) -> u32
    ensures { ((result, answer.new), output.new) ≡ on_first (enumerated_in answer.old) (prefix_answer arena.now (map_from map.now) expr options output.old) }
{
    let enumerated = dependency_orderings::construct_prefix_orderings(
        arena,
        load_map(map),
        expr,
        options,
        output,
    );
    put_enumerated(enumerated, answer)
}

// Enumerates the orderings of some keys. Refusals: 12, 11, 1, 6, 7, 5, 8.
pub fn galthumir_generate_dependency_orderings(
    arena: &[u32; 11265],
    map: &[u16; 1217],
    keys: &[u32],
    output: &mut [u16],
    answer: &mut [usize; 2],
) -> u32
    ensures { ((result, answer.new), output.new) ≡ on_first (enumerated_in answer.old) (generate_answer arena.now (map_from map.now) keys.now output.old) }
{
    let enumerated = dependency_orderings::generate_dependency_orderings(
        arena,
        load_map(map),
        keys,
        output,
    );
    put_enumerated(enumerated, answer)
}
