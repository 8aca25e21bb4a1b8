// The check of a lent group (document 01, "Classes"), and the calls that need no more: opening a group, the class of an
// expression.
//
// The functions of this file are public calls and ask nothing of their caller: each checks the lent arena and the
// group for itself, in the order 12, 11, 1. Those of the module serve the crates above, whose calls check a group with
// them.
#![tactic(auto)]

pub mod checking;

ghost use Rattle.std.specs.Prelude.{◌≡◌, Err};
ghost use Rattle.arena.specs.Refusals.{outcome, refusal};
ghost use Rattle.classes.specs.Calls.{group_number, ask_group};
ghost use Rattle.group_checks.specs.Calls.{opened, class_answer};

use arena::Refusal;
use arena::cells::{node_count, wide};
use checking::check_group;
use classes::building::{class_size, constant_of, empty, first_member};
use classes::finding::find_class;
use classes::refusing::refusal;
use classes::{Changed, Constant, Group};

// The class of an expression: its place, how many members it has, the first of them, and its constant.
#[derive(Clone, Copy, Debug, PartialEq, Eq)]
pub struct ClassIs {
    pub place: usize,
    pub size: usize,
    pub first: u32,
    pub constant: Constant,
}

// Opens an empty group with a member limit of 1 to 256. Refusal: 12, with a group of limit 0, which is none.
pub fn open_group(limit: usize) -> Changed
    ensures { result ≡ opened limit }
{
    if limit == 0 || 256 < limit {
        return refusal(Refusal::BadNumber, empty(0));
    }
    Changed {
        answer: Ok(true),
        group: empty(limit),
    }
}

// The check of a lent group. Refusals: 12, 11, 1, whichever is first.
pub fn check(cells: &[u32; 11265], group: Group) -> Result<(), Refusal>
    ensures { result ≡ outcome (group_number cells.now group) }
{
    check_group(cells, group)
}

// The class of an expression, or that there is none. Refusals: 12, 11, 1.
pub fn get_equivalence_class(
    cells: &[u32; 11265],
    group: Group,
    expr: u32,
) -> Result<Option<ClassIs>, Refusal>
    ensures { result ≡ ask_group (λ k. Err (refusal k)) (class_answer expr) cells.now group }
{
    check_group(cells, group)?;
    if node_count(cells) <= wide(expr) {
        return Err(Refusal::UnknownExpression);
    }
    match find_class(group, expr) {
        Some(place) => Ok(Some(ClassIs {
            place,
            size: class_size(group, place),
            first: first_member(group, place),
            constant: constant_of(group, place),
        })),
        None => Ok(None),
    }
}
