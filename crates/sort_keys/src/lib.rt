// Normal forms of sort keys (document 01, "Classes"): a key keeps its options, and of several keys those are dropped
// whose normal form is a uniform constant. What is missing of the answer is added to the arena.
//
// The functions of this file are the public calls and ask nothing of their caller: each checks the lent arena, the
// group and the keys for itself, in the order 12, 11, 1, 3, 5, and a refusal gives its number and leaves every cell
// as it was. Those of the module serve the crates above, which hold states that are checked already.
#![tactic(auto)]

pub mod keys;

ghost use Rattle.std.specs.Prelude.{◌≡◌};
ghost use Rattle.sort_keys.specs.Calls.{normalized_key, normalized_keys};

use arena::Refusal;
use arena::cells::node_count;
use classes::Group;
use group_checks::checking::{check_group, in_set};
use keys::{exprs_below, options_known, sort_in};
use normal::normalize_expr;

// A sort key: its expression and its options.
#[derive(Clone, Copy, Debug, PartialEq, Eq)]
pub struct SortKey {
    pub expr: u32,
    pub options: u32,
}

// Sort keys: how many there are, and the keys, each as expression · 4 + options; unused places are 0.
// Flat arrays with counts: a state crosses to its callers as these numbers, and the project has no heap.
#[derive(Clone, Copy, Debug, PartialEq, Eq)]
pub struct Sorted {
    pub size: usize,
    pub keys: [u16; 16],
}

// The normal form of a sort key, its options kept. Refusals: 12, 11, 1, 3.
pub fn normalize_sort_expr(
    cells: &mut [u32; 11265],
    group: Group,
    expr: u32,
    options: u32,
) -> Result<SortKey, Refusal>
    ensures { (result, cells.new) ≡ normalized_key expr options cells.old group }
{
    if 3 < options {
        return Err(Refusal::BadNumber);
    }
    let expr = normalize_expr(cells, group, expr)?;
    Ok(SortKey { expr, options })
}

// The normal forms of sort keys, lent as expression and options one after the other. A key whose normal form is a
// uniform constant is dropped; doubles stay. Refusals: 12, 11, 1, 3, 5.
pub fn normalize_sort_exprs(
    cells: &mut [u32; 11265],
    group: Group,
    keys: &[u32],
) -> Result<Sorted, Refusal>
    ensures { (result, cells.new) ≡ normalized_keys keys.now cells.old group }
{
    if !options_known(keys) || !in_set(group) {
        return Err(Refusal::BadNumber);
    }
    if keys.len() % 2 != 0 {
        return Err(Refusal::BadState);
    }
    check_group(cells, group)?;
    let n = node_count(cells);
    if !exprs_below(keys, n) {
        return Err(Refusal::UnknownExpression);
    }
    sort_in(cells, group, keys)
}
