// The calls on expressions.
ghost use Rattle.arena.specs.declared.Refusal.TheVariants.{BadState};
ghost use Rattle.std.specs.Prelude.{◌≡◌, Err};
ghost use Rattle.arena.specs.Calls.{checked, lent, on_lent, add_column, add_literal, add_operation, read_node, read_child};
ghost use Rattle.shifting.specs.Calls.{add_offset};
ghost use Rattle.answers.specs.Answers.{on_first};
ghost use Rattle.group_answers.specs.Answers.{added_in, read_in, child_in};

use arena::refusing::number_of;
use group_answers::{put_added, put_child, put_read};

// The check of an arena. Refusal: 11.
pub fn galthumir_check_arena(arena: &[u32; 11265]) -> u32
    ensures { result ≡ checked arena.now }
{
    number_of(arena::check_arena(arena))
}

// Adds a column. Refusals: 11, 3.
pub fn galthumir_add_column(
    arena: &mut [u32; 11265],
    name: u16,
    index: u16,
    answer: &mut [u32; 1],
) -> u32
    ensures { ((result, answer.new), arena.new) ≡ on_first (added_in answer.old) (lent (add_column name index) arena.old) }
{
    let added = arena::add_column(arena, name, index);
    put_added(added, answer)
}

// Adds a literal. Refusals: 11, 3.
pub fn galthumir_add_literal(arena: &mut [u32; 11265], value: u32, answer: &mut [u32; 1]) -> u32
    ensures { ((result, answer.new), arena.new) ≡ on_first (added_in answer.old) (lent (add_literal value) arena.old) }
{
    let added = arena::add_literal(arena, value);
    put_added(added, answer)
}

// Adds an operation over children that are there. Refusals: 11, 1, 2, 3.
pub fn galthumir_add_operation(
    arena: &mut [u32; 11265],
    label: u32,
    children: &[u32],
    answer: &mut [u32; 1],
) -> u32
    ensures { ((result, answer.new), arena.new) ≡ on_first (added_in answer.old) (lent (add_operation label children.now) arena.old) }
{
    let added = arena::add_operation(arena, label, children);
    put_added(added, answer)
}

// Reads a node. Refusals: 11, 1.
pub fn galthumir_read_node(arena: &[u32; 11265], expr: u32, answer: &mut [u32; 3]) -> u32
    ensures { (result, answer.new) ≡ read_in answer.old (on_lent (Err BadState) (read_node expr) arena.now) }
{
    put_read(arena::read_node(arena, expr), answer)
}

// Reads the child of a node at a place. Refusals: 11, 1.
pub fn galthumir_read_child(
    arena: &[u32; 11265],
    expr: u32,
    place: u32,
    answer: &mut [u32; 2],
) -> u32
    ensures { (result, answer.new) ≡ child_in answer.old (on_lent (Err BadState) (read_child expr place) arena.now) }
{
    put_child(arena::read_child(arena, expr, place), answer)
}

// Shifts every column of an expression by an offset. Refusals: 11, 1, 10, 3.
pub fn galthumir_add_offset_to_expr(
    arena: &mut [u32; 11265],
    expr: u32,
    offset: i64,
    answer: &mut [u32; 1],
) -> u32
    ensures { ((result, answer.new), arena.new) ≡ on_first (added_in answer.old) (lent (add_offset expr offset) arena.old) }
{
    let added = shifting::add_offset_to_expr(arena, expr, offset);
    put_added(added, answer)
}
