// The calls on lists of orderings, exported to C.
ghost use Rattle.std.specs.Prelude.{◌≡◌, Err};
ghost use Rattle.arena.specs.Refusals.{refusal};
ghost use Rattle.arena.specs.Layout.{count};
ghost use Rattle.orderings.specs.Calls.{list_number, ask_list, clear_answer};
ghost use Rattle.ordering_questions.specs.Calls.{options_answer, partial_answer};
ghost use Rattle.reduction.specs.Calls.{add_answer, new_answer, extend_answer};
ghost use Rattle.ordering_joins.specs.Calls.{offset_answer, output_answer, join_answer};
ghost use Rattle.states.specs.Orders.{orderings_from, stored_list};
ghost use Rattle.answers.specs.Answers.{on_first, options_in, partial_in, output_in};

// The check of a list of orderings over an arena. Refusals: 11, 1.
#[unsafe(no_mangle)]
pub extern "C" fn galthumir_check_orderings(arena: &[u32; 11265], orderings: &[u16; 545]) -> u32
    ensures { result ≡ list_number arena.now (orderings_from orderings.now) }
{
    galthumir::orders::galthumir_check_orderings(arena, orderings)
}

// Makes a reduced list of orderings that are built from lists of keys. Refusals: 12, 11, 1, 5.
#[unsafe(no_mangle)]
pub extern "C" fn galthumir_new_orderings(
    arena: &[u32; 11265],
    numbers: &[u16],
    made: &mut [u16; 545],
) -> u32
    ensures { (result, made.new) ≡ stored_list made.old (new_answer arena.now numbers.now) }
{
    galthumir::orders::galthumir_new_orderings(arena, numbers, made)
}

// Adds orderings that are built from lists of keys, and reduces. Refusals: 12, 11, 1, 5.
#[unsafe(no_mangle)]
pub extern "C" fn galthumir_add_orderings(
    arena: &[u32; 11265],
    orderings: &mut [u16; 545],
    numbers: &[u16],
) -> u32
    ensures { (result, orderings.new) ≡ stored_list orderings.old (add_answer arena.now (orderings_from orderings.old) numbers.now) }
{
    galthumir::orders::galthumir_add_orderings(arena, orderings, numbers)
}

// Extends the list by orderings, and reduces. Refusals: 12, 11, 1, 5.
#[unsafe(no_mangle)]
pub extern "C" fn galthumir_extend_orderings(
    arena: &[u32; 11265],
    orderings: &mut [u16; 545],
    numbers: &[u16],
) -> u32
    ensures { (result, orderings.new) ≡ stored_list orderings.old (extend_answer arena.now (orderings_from orderings.old) numbers.now) }
{
    galthumir::orders::galthumir_extend_orderings(arena, orderings, numbers)
}

// Empties a list of orderings. Refusals: 11, 1.
#[unsafe(no_mangle)]
pub extern "C" fn galthumir_clear_orderings(arena: &[u32; 11265], orderings: &mut [u16; 545]) -> u32
    ensures { (result, orderings.new) ≡ stored_list orderings.old (clear_answer arena.now (orderings_from orderings.old)) }
{
    galthumir::orders::galthumir_clear_orderings(arena, orderings)
}

// The options of the first ordering that an expression leads. Refusals: 11, 1.
#[unsafe(no_mangle)]
pub extern "C" fn galthumir_get_options(
    arena: &[u32; 11265],
    orderings: &[u16; 545],
    expr: u32,
    answer: &mut [u32; 2],
) -> u32
    ensures { (result, answer.new) ≡ options_in answer.old (ask_list (λ k. Err (refusal k)) (options_answer (count arena.now) expr) arena.now (orderings_from orderings.now)) }
{
    galthumir::orders::galthumir_get_options(arena, orderings, expr, answer)
}

// Whether an expression leads orderings with opposite options. Refusals: 11, 1.
#[unsafe(no_mangle)]
pub extern "C" fn galthumir_is_expr_partial_const(
    arena: &[u32; 11265],
    orderings: &[u16; 545],
    expr: u32,
    answer: &mut [u32; 1],
) -> u32
    ensures { (result, answer.new) ≡ partial_in answer.old (ask_list (λ k. Err (refusal k)) (partial_answer (count arena.now) expr) arena.now (orderings_from orderings.now)) }
{
    galthumir::orders::galthumir_is_expr_partial_const(arena, orderings, expr, answer)
}

// The joined ordering of all orderings. Refusals: 11, 1, 5.
#[unsafe(no_mangle)]
pub extern "C" fn galthumir_output_ordering(
    arena: &[u32; 11265],
    orderings: &[u16; 545],
    answer: &mut [u16; 17],
) -> u32
    ensures { (result, answer.new) ≡ output_in answer.old (output_answer arena.now (orderings_from orderings.now)) }
{
    galthumir::orders::galthumir_output_ordering(arena, orderings, answer)
}

// Makes the list in which each ordering is extended by each of another list. Refusals: 11, 1, 5.
#[unsafe(no_mangle)]
pub extern "C" fn galthumir_join_suffix(
    arena: &[u32; 11265],
    orderings: &[u16; 545],
    other: &[u16; 545],
    made: &mut [u16; 545],
) -> u32
    ensures { (result, made.new) ≡ stored_list made.old (join_answer arena.now (orderings_from orderings.now) (orderings_from other.now)) }
{
    galthumir::orders::galthumir_join_suffix(arena, orderings, other, made)
}

// Moves the columns of every key. Refusals: 11, 1, 10, 3.
#[unsafe(no_mangle)]
pub extern "C" fn galthumir_add_offset(
    arena: &mut [u32; 11265],
    orderings: &mut [u16; 545],
    offset: i64,
) -> u32
    ensures { ((result, orderings.new), arena.new) ≡ on_first (stored_list orderings.old) (offset_answer offset arena.old (orderings_from orderings.old)) }
{
    galthumir::orders::galthumir_add_offset(arena, orderings, offset)
}
