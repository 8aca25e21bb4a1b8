// The two questions on a group of equality classes (document 01, "Classes"): are two expressions equal, and is an
// expression constant.
//
// The functions of this file are the public calls and ask nothing of their caller: each checks the lent arena and
// the group for itself, in the order 12, 11, 1. Those of the module serve the crates above, which hold a group that
// is checked already.
#![tactic(auto)]

pub mod questions;

ghost use Rattle.std.specs.Prelude.{◌≡◌, Err};
ghost use Rattle.arena.specs.Refusals.{refusal};
ghost use Rattle.classes.specs.Calls.{ask_group};
ghost use Rattle.questions.specs.Calls.{equal_answer, constant_answer};

use arena::Refusal;
use arena::cells::{node_count, wide};
use classes::{Constant, Group};
use group_checks::checking::check_group;
use questions::{constant_in, equal_in};

// The equality question. Refusals: 12, 11, 1.
pub fn exprs_equal(
    cells: &[u32; 11265],
    group: Group,
    left: u32,
    right: u32,
) -> Result<bool, Refusal>
    ensures { result ≡ ask_group (λ k. Err (refusal k)) (equal_answer left right) cells.now group }
{
    check_group(cells, group)?;
    let n = node_count(cells);
    if n <= wide(left) || n <= wide(right) {
        return Err(Refusal::UnknownExpression);
    }
    Ok(equal_in(cells, group, left, right))
}

// The constant question. Refusals: 12, 11, 1.
pub fn is_expr_constant(cells: &[u32; 11265], group: Group, expr: u32) -> Result<Constant, Refusal>
    ensures { result ≡ ask_group (λ k. Err (refusal k)) (constant_answer expr) cells.now group }
{
    check_group(cells, group)?;
    if node_count(cells) <= wide(expr) {
        return Err(Refusal::UnknownExpression);
    }
    Ok(constant_in(cells, group, expr))
}
