// The two questions on a list of orderings (document 01, "Orderings"): the options of an expression that leads one, and
// whether an expression is partly constant.
//
// The functions of this file are the public calls and ask nothing of their caller: each checks what it is lent for
// itself, and a refusal gives its number of document 01's table. Those of the module ask of a list that is checked
// already.
#![tactic(auto)]

pub mod questions;

ghost use Rattle.std.specs.Prelude.{◌≡◌, Err};
ghost use Rattle.arena.specs.Layout.{count};
ghost use Rattle.arena.specs.Refusals.{refusal};
ghost use Rattle.orderings.specs.Calls.{ask_list};
ghost use Rattle.ordering_questions.specs.Calls.{options_answer, partial_answer};

use arena::Refusal;
use arena::cells::{node_count, wide};
use orderings::Orderings;
use orderings::checking::check_list;
use questions::{options_in, partial_in};

// The options of the first ordering that an expression leads, or none where it leads none. Refusals: 11, 1.
pub fn get_options(cells: &[u32; 11265], list: Orderings, expr: u32) -> Result<Option<u32>, Refusal>
    ensures { result ≡ ask_list (λ k. Err (refusal k)) (options_answer (count cells.now) expr) cells.now list }
{
    check_list(cells, list)?;
    let n = node_count(cells);
    if n <= wide(expr) {
        return Err(Refusal::UnknownExpression);
    }
    Ok(options_in(list, expr))
}

// An expression leads orderings with opposite options. Refusals: 11, 1.
pub fn is_expr_partial_const(
    cells: &[u32; 11265],
    list: Orderings,
    expr: u32,
) -> Result<bool, Refusal>
    ensures { result ≡ ask_list (λ k. Err (refusal k)) (partial_answer (count cells.now) expr) cells.now list }
{
    check_list(cells, list)?;
    let n = node_count(cells);
    if n <= wide(expr) {
        return Err(Refusal::UnknownExpression);
    }
    Ok(partial_in(list, expr))
}
