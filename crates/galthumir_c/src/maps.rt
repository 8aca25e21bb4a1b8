// The calls on dependency maps, exported to C.
ghost use Rattle.std.specs.Prelude.{◌≡◌};
ghost use Rattle.dependencies.specs.Calls.{map_number, insert_answer};
ghost use Rattle.dependency_orderings.specs.Calls.{prefix_answer, generate_answer};
ghost use Rattle.states.specs.Maps.{map_from, stored_map};
ghost use Rattle.answers.specs.Answers.{on_first, enumerated_in, given_from};

// The check of a dependency map over an arena. Refusals: 11, 1.
#[unsafe(no_mangle)]
pub extern "C" fn galthumir_check_map(arena: &[u32; 11265], map: &[u16; 1217]) -> u32
    ensures { result ≡ map_number arena.now (map_from map.now) }
{
    galthumir::maps::galthumir_check_map(arena, map)
}

// Inserts a key with its target and a dependency, each of which may be none. Refusals: 12, 11, 1, 5.
#[unsafe(no_mangle)]
pub extern "C" fn galthumir_insert(
    arena: &[u32; 11265],
    map: &mut [u16; 1217],
    expr: u32,
    options: u32,
    target_expr: u32,
    target_options: u32,
    dependency_expr: u32,
    dependency_options: u32,
) -> u32
    ensures { (result, map.new) ≡ stored_map map.old (insert_answer arena.now (map_from map.old) expr options (given_from target_expr target_options) (given_from dependency_expr dependency_options)) }
{
    galthumir::maps::galthumir_insert(
        arena,
        map,
        expr,
        options,
        target_expr,
        target_options,
        dependency_expr,
        dependency_options,
    )
}

// Enumerates the prefix orderings of a key. Refusals: 12, 11, 1, 6, 7, 5, 8.
#[unsafe(no_mangle)]
pub extern "C" fn galthumir_construct_prefix_orderings(
    arena: &[u32; 11265],
    map: &[u16; 1217],
    expr: u32,
    options: u32,
    output: &mut [u16],
    answer: &mut [usize; 2],
) -> u32
    ensures { ((result, answer.new), output.new) ≡ on_first (enumerated_in answer.old) (prefix_answer arena.now (map_from map.now) expr options output.old) }
{
    galthumir::maps::galthumir_construct_prefix_orderings(arena, map, expr, options, output, answer)
}

// Enumerates the orderings of some keys. Refusals: 12, 11, 1, 6, 7, 5, 8.
#[unsafe(no_mangle)]
pub extern "C" fn galthumir_generate_dependency_orderings(
    arena: &[u32; 11265],
    map: &[u16; 1217],
    keys: &[u32],
    output: &mut [u16],
    answer: &mut [usize; 2],
) -> u32
    ensures { ((result, answer.new), output.new) ≡ on_first (enumerated_in answer.old) (generate_answer arena.now (map_from map.now) keys.now output.old) }
{
    galthumir::maps::galthumir_generate_dependency_orderings(arena, map, keys, output, answer)
}
