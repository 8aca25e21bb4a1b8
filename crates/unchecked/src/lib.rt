// Inner functions, for the benchmark alone: the same work as the library's calls of the same name, without the check of what
// is lent. What the check would find is asked of the caller instead, in `requires`, so an engine links the crate galthumir and
// not this one. The crate unchecked_c exports them.
#![tactic(auto)]

ghost use Rattle.std.specs.Prelude.{true, ◌++◌, ◌≡◌, length};
ghost use Rattle.arena.specs.Arena.{add_expression};
ghost use Rattle.arena.specs.Calls.{in_cells, answered};
ghost use Rattle.arena.specs.Expression.{expression_at};
ghost use Rattle.arena.specs.Layout.{decode as nodes};
ghost use Rattle.arena.specs.Inner.{Known};
ghost use Rattle.classes.specs.Calls.{changed};
ghost use Rattle.classes.specs.Group.{equal_condition};
ghost use Rattle.classes.specs.Inner.{Held, Coded};
ghost use Rattle.classes.specs.Layout.{decode};
ghost use Rattle.classes.specs.Steps.{fits, judged};
ghost use Rattle.questions.specs.Questions.{exprs_equal};
ghost use Rattle.normal.specs.Normal.{normal};
ghost use Rattle.merging.specs.Calls.{made_group};
ghost use Rattle.lent_classes.specs.Lent.{flavours_known, whole, classes_lent};
ghost use Rattle.merging.specs.Merging.{from_classes};
ghost use Rattle.orderings.specs.Inner.{Held as HeldList};
ghost use Rattle.orderings.specs.Layout.{decode as orderings_of};
ghost use Rattle.orderings.specs.Lists.{built_all};
ghost use Rattle.reduction.specs.Calls.{reduced_list};
ghost use Rattle.reduction.specs.Lent.{lists_lent};
ghost use Rattle.reduction.specs.Inner.{LentFit};
ghost use Rattle.dependencies.specs.Inner.{Held as HeldMap};
ghost use Rattle.dependencies.specs.Layout.{decode as entries_of};
ghost use Rattle.products.specs.Generate.{contributing};
ghost use Rattle.dependency_orderings.specs.Calls.{gathered_answer, different};
ghost use Rattle.dependency_orderings.specs.Inner.{KeysFit};
ghost use Rattle.group_states.specs.Groups.{group_from, stored_group};
ghost use Rattle.states.specs.Orders.{orderings_from, stored_list};
ghost use Rattle.states.specs.Maps.{map_from};
ghost use Rattle.answers.specs.Answers.{on_first, enumerated_in, bit};
ghost use Rattle.group_answers.specs.Answers.{added_in};

use answers::{bit_of, put_enumerated};
use conditions::equating::equal_condition_in;
use dependency_orderings::answering::answer_gathered;
use dependency_orderings::gathering::gather;
use group_answers::put_added;
use group_states::groups::{load_group, store_group};
use lent_classes::lent::lent_classes;
use merging::bridging::{from_classes, made as made_of};
use normal::normalizing::normalize_in;
use questions::questions::equal_in;
use reduction::lent::add_in;
use states::maps::load_map;
use states::orders::{load_orderings, store_orderings};

// Two expressions are equal.
pub fn unchecked_add_equal_conditions(
    arena: &[u32; 11265],
    group: &mut [u32; 451],
    left: u32,
    right: u32,
) -> u32
    requires { Held (nodes arena.now) (group_from group.old) × (Known arena.now left × Known arena.now right) }
    ensures { (result, group.new) ≡ stored_group group.old (changed (group_from group.old).limit (judged (group_from group.old).limit (decode (group_from group.old)) (equal_condition (nodes arena.now) (decode (group_from group.old)) left right))) }
{
    let changed = equal_condition_in(arena, load_group(group), left, right);
    store_group(changed, group)
}

// The equality question: 1 for yes, 0 for no.
pub fn unchecked_exprs_equal(arena: &[u32; 11265], group: &[u32; 451], left: u32, right: u32) -> u32
    requires { (Known arena.now left × Known arena.now right) × Coded (group_from group.now) }
    ensures { result ≡ bit (exprs_equal (nodes arena.now) (decode (group_from group.now)) left right) }
{
    bit_of(equal_in(arena, load_group(group), left, right))
}

// The normal form of an expression.
pub fn unchecked_normalize_expr(
    arena: &mut [u32; 11265],
    group: &[u32; 451],
    expr: u32,
    answer: &mut [u32; 1],
) -> u32
    requires { Known arena.old expr × Held (nodes arena.old) (group_from group.now) }
    ensures { ((result, answer.new), arena.new) ≡ on_first (added_in answer.old) (in_cells (answered (nodes arena.old) (add_expression (normal (nodes arena.old) (decode (group_from group.now)) (expression_at (nodes arena.old) expr)) (nodes arena.old)))) }
{
    let added = normalize_in(arena, load_group(group), expr);
    put_added(added, answer)
}

// Makes a group from a list of classes.
pub fn unchecked_new_group(classes: &[u32], made: &mut [u32; 451]) -> u32
    requires { (flavours_known classes.now ≡ true) × ((whole classes.now ≡ true) × (fits 256 (classes_lent classes.now) ≡ true)) }
    ensures { (result, made.new) ≡ stored_group made.old (made_group (from_classes (classes_lent classes.now))) }
{
    let changed = made_of(from_classes(lent_classes(classes)));
    store_group(changed, made)
}

// Adds orderings that are built from lists of keys, and reduces.
pub fn unchecked_add_orderings(orderings: &mut [u16; 545], numbers: &[u16]) -> u32
    requires { HeldList (orderings_from orderings.old) × LentFit numbers.now }
    ensures { (result, orderings.new) ≡ stored_list orderings.old (reduced_list (orderings_from orderings.old) (orderings_of (orderings_from orderings.old) ++ built_all (lists_lent numbers.now))) }
{
    let listed = add_in(load_orderings(orderings), numbers);
    store_orderings(listed, orderings)
}

// Enumerates the orderings of some keys.
pub fn unchecked_generate_dependency_orderings(
    map: &[u16; 1217],
    keys: &[u32],
    output: &mut [u16],
    answer: &mut [usize; 2],
) -> u32
    requires { HeldMap (map_from map.now) × KeysFit keys.now }
    ensures { ((result, answer.new), output.new) ≡ on_first (enumerated_in answer.old) (gathered_answer (contributing (entries_of (map_from map.now)) (different keys.now)) (length (different keys.now)) output.old) }
{
    let enumerated = answer_gathered(gather(load_map(map), keys), output);
    put_enumerated(enumerated, answer)
}
