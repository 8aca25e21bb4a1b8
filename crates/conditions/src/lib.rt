// The calls that change a group of equality classes (document 01, "Classes"): an equal condition, a constant, and
// clearing.
//
// The functions of this file are the public calls and ask nothing of their caller: each checks the lent arena and
// the group for itself, in the order 12, 11, 1, 4, and a refusal gives its number and hands the group back as it
// was. Those of the modules serve the crates above, which hold a group that is checked already.
#![tactic(auto)]

pub mod clearing;
pub mod constants;
pub mod equating;

ghost use Rattle.std.specs.Prelude.{◌≡◌};
ghost use Rattle.classes.specs.Calls.{on_group};
ghost use Rattle.conditions.specs.Steps.{add_equal, clear};
ghost use Rattle.conditions.specs.Calls.{on_constant};

use arena::Refusal;
use arena::cells::{node_count, wide};
use classes::refusing::refusal;
use classes::{Changed, Constant, Group};
use clearing::clear_in;
use constants::{add_constant_in, can_say};
use equating::equal_condition_in;
use group_checks::checking::check_group;

// Two expressions are equal. The answer says whether a new class was made. Refusals: 12, 11, 1, 4.
pub fn add_equal_conditions(cells: &[u32; 11265], group: Group, left: u32, right: u32) -> Changed
    ensures { result ≡ on_group (λ ns cs. add_equal group.limit ns left right cs) cells.now group }
{
    if let Err(why) = check_group(cells, group) {
        return refusal(why, group);
    }
    let n = node_count(cells);
    if n <= wide(left) {
        return refusal(Refusal::UnknownExpression, group);
    }
    if n <= wide(right) {
        return refusal(Refusal::UnknownExpression, group);
    }
    equal_condition_in(cells, group, left, right)
}

// An expression is constant: flavour 0 heterogeneous, 1 uniform unknown, 2 uniform with a value. Refusals: 12, 11,
// 1, 4.
pub fn add_constant(
    cells: &[u32; 11265],
    group: Group,
    expr: u32,
    flavour: u32,
    value: u32,
) -> Changed
    ensures { result ≡ on_constant expr flavour value cells.now group }
{
    if !can_say(flavour, value) {
        return refusal(Refusal::BadNumber, group);
    }
    if let Err(why) = check_group(cells, group) {
        return refusal(why, group);
    }
    let n = node_count(cells);
    if n <= wide(expr) {
        return refusal(Refusal::UnknownExpression, group);
    }
    let said = Constant::from_numbers(flavour + 1, value);
    add_constant_in(cells, group, expr, said)
}

// Drops the constants that may differ from partition to partition. The answer says whether anything changed.
// Refusals: 12, 11, 1.
pub fn clear_per_partition_constants(cells: &[u32; 11265], group: Group) -> Changed
    ensures { result ≡ on_group (λ ns cs. clear cs) cells.now group }
{
    if let Err(why) = check_group(cells, group) {
        return refusal(why, group);
    }
    clear_in(group)
}
