// The calls on groups.
ghost use Rattle.std.specs.Prelude.{◌≡◌, Err};
ghost use Rattle.arena.specs.Refusals.{refusal};
ghost use Rattle.classes.specs.Calls.{group_number, on_group, ask_group};
ghost use Rattle.group_checks.specs.Calls.{opened, class_answer};
ghost use Rattle.conditions.specs.Steps.{add_equal, clear};
ghost use Rattle.conditions.specs.Calls.{on_constant};
ghost use Rattle.questions.specs.Calls.{equal_answer, constant_answer};
ghost use Rattle.normal.specs.Calls.{normalized};
ghost use Rattle.sort_keys.specs.Calls.{normalized_key, normalized_keys};
ghost use Rattle.merging.specs.Calls.{new_answer};
ghost use Rattle.joins.specs.Calls.{join_answer};
ghost use Rattle.group_projection.specs.Calls.{project_answer};
ghost use Rattle.projection.specs.Calls.{projected_expr, projected_expressions};
ghost use Rattle.group_states.specs.Groups.{group_from, stored_group};
ghost use Rattle.answers.specs.Answers.{on_first};
ghost use Rattle.group_answers.specs.Answers.{added_in, class_in, changed_in, answer_in, constant_in, key_in, sorted_in, projected_in};

use arena::cells::wide;
use arena::refusing::number_of;
use group_answers::{
    put_added, put_answer, put_changed, put_class_is, put_constant, put_key, put_projected,
    put_sorted,
};
use group_states::groups::{load_group, store_group};

// Makes an empty group with a member limit of 1 to 256. Refusal: 12.
pub fn galthumir_open_group(limit: u32, made: &mut [u32; 451]) -> u32
    ensures { (result, made.new) ≡ stored_group made.old (opened limit) }
{
    let opened = group_checks::open_group(wide(limit));
    store_group(opened, made)
}

// The check of a group over an arena. Refusals: 12, 11, 1.
pub fn galthumir_check_group(arena: &[u32; 11265], group: &[u32; 451]) -> u32
    ensures { result ≡ group_number arena.now (group_from group.now) }
{
    number_of(group_checks::check(arena, load_group(group)))
}

// The class of an expression. Refusals: 12, 11, 1.
pub fn galthumir_get_equivalence_class(
    arena: &[u32; 11265],
    group: &[u32; 451],
    expr: u32,
    answer: &mut [usize; 6],
) -> u32
    ensures { (result, answer.new) ≡ class_in answer.old (ask_group (λ k. Err (refusal k)) (class_answer expr) arena.now (group_from group.now)) }
{
    put_class_is(
        group_checks::get_equivalence_class(arena, load_group(group), expr),
        answer,
    )
}

// Two expressions are equal. Refusals: 12, 11, 1, 4.
pub fn galthumir_add_equal_conditions(
    arena: &[u32; 11265],
    group: &mut [u32; 451],
    left: u32,
    right: u32,
    answer: &mut [u32; 1],
) -> u32
    ensures { ((result, answer.new), group.new) ≡ changed_in answer.old group.old (on_group (λ ns cs. add_equal (group_from group.old).limit ns left right cs) arena.now (group_from group.old)) }
{
    let changed = conditions::add_equal_conditions(arena, load_group(group), left, right);
    put_changed(changed, group, answer)
}

// An expression is constant. Refusals: 12, 11, 1, 4.
pub fn galthumir_add_constant(
    arena: &[u32; 11265],
    group: &mut [u32; 451],
    expr: u32,
    flavour: u32,
    value: u32,
) -> u32
    ensures { (result, group.new) ≡ stored_group group.old (on_constant expr flavour value arena.now (group_from group.old)) }
{
    let changed = conditions::add_constant(arena, load_group(group), expr, flavour, value);
    store_group(changed, group)
}

// Drops the constants that may differ from partition to partition. Refusals: 12, 11, 1.
pub fn galthumir_clear_per_partition_constants(
    arena: &[u32; 11265],
    group: &mut [u32; 451],
    answer: &mut [u32; 1],
) -> u32
    ensures { ((result, answer.new), group.new) ≡ changed_in answer.old group.old (on_group (λ ns cs. clear cs) arena.now (group_from group.old)) }
{
    let changed = conditions::clear_per_partition_constants(arena, load_group(group));
    put_changed(changed, group, answer)
}

// The equality question. Refusals: 12, 11, 1.
pub fn galthumir_exprs_equal(
    arena: &[u32; 11265],
    group: &[u32; 451],
    left: u32,
    right: u32,
    answer: &mut [u32; 1],
) -> u32
    ensures { (result, answer.new) ≡ answer_in answer.old (ask_group (λ k. Err (refusal k)) (equal_answer left right) arena.now (group_from group.now)) }
{
    put_answer(
        questions::exprs_equal(arena, load_group(group), left, right),
        answer,
    )
}

// The constant question. Refusals: 12, 11, 1.
pub fn galthumir_is_expr_constant(
    arena: &[u32; 11265],
    group: &[u32; 451],
    expr: u32,
    answer: &mut [u32; 2],
) -> u32
    ensures { (result, answer.new) ≡ constant_in answer.old (ask_group (λ k. Err (refusal k)) (constant_answer expr) arena.now (group_from group.now)) }
{
    put_constant(
        questions::is_expr_constant(arena, load_group(group), expr),
        answer,
    )
}

// The normal form of an expression. Refusals: 12, 11, 1, 3.
pub fn galthumir_normalize_expr(
    arena: &mut [u32; 11265],
    group: &[u32; 451],
    expr: u32,
    answer: &mut [u32; 1],
) -> u32
    ensures { ((result, answer.new), arena.new) ≡ on_first (added_in answer.old) (normalized expr arena.old (group_from group.now)) }
{
    let added = normal::normalize_expr(arena, load_group(group), expr);
    put_added(added, answer)
}

// The normal form of a sort key. Refusals: 12, 11, 1, 3.
pub fn galthumir_normalize_sort_expr(
    arena: &mut [u32; 11265],
    group: &[u32; 451],
    expr: u32,
    options: u32,
    answer: &mut [u32; 2],
) -> u32
    ensures { ((result, answer.new), arena.new) ≡ on_first (key_in answer.old) (normalized_key expr options arena.old (group_from group.now)) }
{
    let key = sort_keys::normalize_sort_expr(arena, load_group(group), expr, options);
    put_key(key, answer)
}

// The normal forms of sort keys. Refusals: 12, 11, 1, 3, 5.
pub fn galthumir_normalize_sort_exprs(
    arena: &mut [u32; 11265],
    group: &[u32; 451],
    keys: &[u32],
    answer: &mut [u16; 17],
) -> u32
    ensures { ((result, answer.new), arena.new) ≡ on_first (sorted_in answer.old) (normalized_keys keys.now arena.old (group_from group.now)) }
{
    let sorted = sort_keys::normalize_sort_exprs(arena, load_group(group), keys);
    put_sorted(sorted, answer)
}

// Makes a group from a list of classes. Refusals: 12, 11, 1, 4.
pub fn galthumir_new_group(arena: &[u32; 11265], classes: &[u32], made: &mut [u32; 451]) -> u32
    ensures { (result, made.new) ≡ stored_group made.old (new_answer arena.now classes.now) }
{
    let changed = merging::new(arena, classes);
    store_group(changed, made)
}

// Makes the group of a join. Refusals: 12, 11, 1, 10, 3, 4.
pub fn galthumir_join(
    arena: &mut [u32; 11265],
    left: &[u32; 451],
    right: &[u32; 451],
    kind: u32,
    left_size: usize,
    pairs: &[u32],
    made: &mut [u32; 451],
) -> u32
    ensures { ((result, made.new), arena.new) ≡ on_first (stored_group made.old) (join_answer arena.old (group_from left.now) (group_from right.now) kind left_size pairs.now) }
{
    let changed = joins::join(
        arena,
        load_group(left),
        load_group(right),
        kind,
        left_size,
        pairs,
    );
    store_group(changed, made)
}

// Makes the projection of a group. Refusals: 12, 11, 1, 3, 4.
pub fn galthumir_project(
    arena: &mut [u32; 11265],
    group: &[u32; 451],
    mapping: &[u32],
    made: &mut [u32; 451],
) -> u32
    ensures { ((result, made.new), arena.new) ≡ on_first (stored_group made.old) (project_answer arena.old (group_from group.now) mapping.now) }
{
    let changed = group_projection::project(arena, load_group(group), mapping);
    store_group(changed, made)
}

// The projection of an expression. Refusals: 12, 11, 1, 3.
pub fn galthumir_project_expr(
    arena: &mut [u32; 11265],
    group: &[u32; 451],
    mapping: &[u32],
    expr: u32,
    answer: &mut [u32; 2],
) -> u32
    ensures { ((result, answer.new), arena.new) ≡ on_first (projected_in answer.old) (projected_expr expr mapping.now arena.old (group_from group.now)) }
{
    let projected = projection::project_expr(arena, load_group(group), mapping, expr);
    put_projected(projected, answer)
}

// The projections of some expressions. Refusals: 12, 11, 1, 3, 8.
pub fn galthumir_project_expressions(
    arena: &mut [u32; 11265],
    group: &[u32; 451],
    mapping: &[u32],
    exprs: &[u32],
    output: &mut [u32],
) -> u32
    ensures { ((result, output.new), arena.new) ≡ projected_expressions exprs.now output.old mapping.now arena.old (group_from group.now) }
{
    number_of(projection::project_expressions(arena, load_group(group), mapping, exprs, output))
}
