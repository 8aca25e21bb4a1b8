// Constants, on an arena and a group that are checked already.
ghost use Rattle.std.specs.Prelude.{true, false, [], ◌∷◌, ◌++◌, ◌≡◌, ◌≤◌, ◌<◌};
ghost use Rattle.arena.specs.Layout.{decode as nodes};
ghost use Rattle.arena.specs.Inner.{Known};
ghost use Rattle.classes.specs.declared.Constant.TheVariants.{NoConstant as no_constant};
ghost use Rattle.classes.specs.Class.{same_constant};
ghost use Rattle.classes.specs.Group.{class_like, constant_for, merged_at, with_constant};
ghost use Rattle.classes.specs.Steps.{judged};
ghost use Rattle.classes.specs.Layout.{decode};
ghost use Rattle.classes.specs.Calls.{changed};
ghost use Rattle.classes.specs.Inner.{Coded, Held};
ghost use Rattle.conditions.specs.Calls.{sayable};

use arena::Refusal;
use classes::building::{add_class, constant_of, merge_class_at_idx, set_constant};
use classes::finding::find_class;
use classes::refusing::refusal;
use classes::single::{carried, one_class};
use classes::{Changed, Constant, Group};

// A constant can be said: flavour 0 to 2, and a value other than 0 only with flavour 2.
#[tactic(auto, unfolding(crate::specs::Calls::sayable))]
pub fn can_say(flavour: u32, value: u32) -> bool
    ensures { result ≡ sayable flavour value }
{
    flavour == 2 || flavour < 2 && value == 0
}

// Two constants are equal; two unknown ones count as equal.
fn same_constant(a: Constant, b: Constant) -> bool
    ensures { result ≡ same_constant true a b }
{
    a == b
}

// The first class with an equal constant, for a uniform one.
fn find_like(g: Group, constant: Constant) -> Option<usize>
    requires { Coded g }
    ensures { result ≡ class_like true (decode g) constant }
{
    match constant {
        Constant::NoConstant | Constant::Heterogeneous => None,
        Constant::Unknown | Constant::Known(_) => {
            (0..g.count).find(|i| same_constant(constant_of(g, *i), constant))
        }
    }
}

// A nonmember goes to class i. Refusal: 4.
fn push_constant(g: Group, i: usize, e: u32) -> Changed
    requires { (Coded g × (i < g.count)) × (g.limit ≤ 256) }
    ensures { result ≡ changed g.limit (judged g.limit (decode g) (false, merged_at (decode g) i (record { members = e ∷ []; constant = no_constant }))) }
{
    if g.limit <= g.used {
        return refusal(Refusal::GroupFull, g);
    }
    let one = one_class(e, Constant::NoConstant);
    Changed {
        answer: Ok(false),
        group: merge_class_at_idx(g, i, one, 0),
    }
}

// A nonmember makes a new class with its constant. Refusal: 4.
fn open_constant(g: Group, e: u32, constant: Constant) -> Changed
    requires { Coded g × (g.limit ≤ 256) }
    ensures { result ≡ changed g.limit (judged g.limit (decode g) (false, decode g ++ (record { members = e ∷ []; constant = constant } ∷ []))) }
{
    if 64 <= g.count {
        return refusal(Refusal::GroupFull, g);
    }
    if g.limit <= g.used {
        return refusal(Refusal::GroupFull, g);
    }
    let one = one_class(e, constant);
    Changed {
        answer: Ok(false),
        group: add_class(g, one, 0),
    }
}

// The constant of an expression that no class holds. Refusal: 4.
fn constant_for(g: Group, e: u32, constant: Constant) -> Changed
    requires { Coded g × (g.limit ≤ 256) }
    ensures { result ≡ changed g.limit (judged g.limit (decode g) (false, constant_for (decode g) e constant (class_like true (decode g) constant))) }
{
    match find_like(g, constant) {
        Some(i) => push_constant(g, i, e),
        None => open_constant(g, e, constant),
    }
}

// The constant of an expression: what is said, or a literal's own value. Refusal: 4.
pub fn add_constant_in(cells: &[u32; 11265], g: Group, e: u32, said: Constant) -> Changed
    requires { Held (nodes cells.now) g × Known cells.now e }
    ensures { result ≡ changed g.limit (judged g.limit (decode g) (false, with_constant true (nodes cells.now) (decode g) e said)) }
{
    let constant = carried(cells, e).taken_over(said);
    match find_class(g, e) {
        Some(i) => Changed {
            answer: Ok(false),
            group: set_constant(g, i, constant),
        },
        None => constant_for(g, e, constant),
    }
}
