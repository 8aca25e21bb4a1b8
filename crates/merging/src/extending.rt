// The class functions of the text: contains_any, is_trivial, extend, push.
ghost use Rattle.std.specs.Prelude.{[], ◌∷◌, ◌++◌, ◌≡◌, ◌≤◌, ◌<◌, ◌+◌, ◌-◌, length, get_or};
ghost use Rattle.arena.specs.Layout.{decode as nodes};
ghost use Rattle.arena.specs.Inner.{Known};
ghost use Rattle.classes.specs.declared.Constant.TheVariants.{NoConstant as no_constant};
ghost use Rattle.classes.specs.Class.{single};
ghost use Rattle.classes.specs.Group.{among, class_at, merged_at};
ghost use Rattle.classes.specs.Layout.{encode, decode, constant_from};
ghost use Rattle.classes.specs.Inner.{Coded};
ghost use Rattle.merging.specs.Extending.{missing, contains_any, is_trivial};
ghost use Rattle.merging.specs.Merging.{bridged};
ghost use Rattle.merging.specs.Inner.{missing_some};

use arena::cells::wide;
use classes::building::{
    class_start, constant_of, empty, merge_class_at_idx, merge_last, remove_class_at_idx,
    set_constant,
};
use classes::single::{carried, one_class, single_group};
use classes::{Constant, Group};

// Class i holds an expression.
pub fn class_holds(g: Group, i: usize, e: u32) -> bool
    requires { Coded g × (i < g.count) }
    ensures { result ≡ among e (class_at (decode g) i).members }
{
    let sizes = g.sizes;
    let start = class_start(sizes, i);
    g.members[start..start + g.sizes[i]].contains(&e)
}

// Two classes have an expression in common.
pub fn contains_any(g: Group, i: usize, j: usize) -> bool
    requires { Coded g × ((i < g.count) × (j < g.count)) }
    ensures { result ≡ contains_any (class_at (decode g) i) (class_at (decode g) j) }
{
    let sizes = g.sizes;
    let start = class_start(sizes, i);
    let other = class_start(sizes, j);
    let others = &g.members[other..other + g.sizes[j]];
    g.members[start..start + g.sizes[i]]
        .iter()
        .any(|e| others.contains(e))
}

// A class says nothing: it is empty, or has one member and no constant.
pub fn is_trivial(g: Group, i: usize) -> bool
    requires { Coded g × (i < g.count) }
    ensures { result ≡ is_trivial (class_at (decode g) i) }
{
    let size = g.sizes[i];
    size == 0 || size == 1 && g.flavours[i] == 0
}

// A group of one class that has a constant and no member yet.
pub fn one_empty(constant: Constant) -> Group
    ensures { result ≡ encode 256 (record { members = []; constant = constant } ∷ []) }
{
    let mut g = empty(256);
    g.flavours[0] = constant.flavour();
    g.values[0] = constant.value();
    g.count = 1;
    g
}

// An expression at the end of the last class, with nothing else.
fn append_member(out: Group, e: u32) -> Group
    requires { Coded out × ((0 < out.count) × (out.used < 256)) }
    ensures { result ≡ encode out.limit (merged_at (decode out) (out.count - 1) (record { members = e ∷ []; constant = no_constant })) }
{
    let one = one_class(e, Constant::NoConstant);
    merge_last(out, one, 0)
}

// The first k members of class j that class i doesn't have, and the next of them if class i doesn't have it.
fn add_missing(out: Group, g: Group, i: usize, j: usize, k: usize) -> Group
    requires { (Coded g × ((i < g.count) × (j < g.count))) × ((k < get_or g.sizes j 0) × (out ≡ encode 256 (missing_some k (class_at (decode g) i) (class_at (decode g) j) ∷ []))) }
    ensures { result ≡ encode 256 (missing_some (k + 1) (class_at (decode g) i) (class_at (decode g) j) ∷ []) }
{
    let sizes = g.sizes;
    let start = class_start(sizes, j);
    let e = g.members[start + k];
    if class_holds(g, i, e) {
        return out;
    }
    append_member(out, e)
}

// What class j brings to class i, as a group of one class: the members that class i doesn't have, and the constant.
fn missing_class(g: Group, i: usize, j: usize) -> Group
    requires { Coded g × ((i < g.count) × (j < g.count)) }
    ensures { result ≡ encode 256 (missing (class_at (decode g) i) (class_at (decode g) j) ∷ []) }
{
    let mut out = one_empty(constant_of(g, j));
    for k in 0..g.sizes[j] {
        out = add_missing(out, g, i, j, k);
    }
    out
}

// Class j extends class i and goes: the last moves into its gap.
pub fn extend(g: Group, i: usize, j: usize) -> Group
    requires { Coded g × ((i < j) × (j < g.count)) }
    ensures { result ≡ encode g.limit (bridged (decode g) i j) }
{
    let more = missing_class(g, i, j);
    let rest = remove_class_at_idx(g, j);
    merge_class_at_idx(rest, i, more, 0)
}

// An expression is pushed to the last class, which may have it already.
pub fn push(cells: &[u32; 11265], out: Group, e: u32) -> Group
    requires { (Coded out × ((0 < out.count) × (out.used < 256))) × Known cells.now e }
    ensures { result ≡ encode out.limit (merged_at (decode out) (out.count - 1) (missing (class_at (decode out) (out.count - 1)) (single (nodes cells.now) e))) }
{
    let last = out.count - 1;
    if class_holds(out, last, e) {
        return set_constant(out, last, carried(cells, e));
    }
    let one = single_group(cells, e);
    merge_last(out, one, 0)
}
