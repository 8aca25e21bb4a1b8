// Groups, built class by class. Few functions here touch the tables: one puts a class at the end, one merges a
// class into the last, one sets a constant. The others rebuild a group from those.
ghost use Rattle.std.specs.Prelude.{◌≡◌, [], ◌∷◌, ◌++◌, ◌≤◌, ◌<◌, ◌+◌, ◌-◌, length, get_or, set, drop};
ghost use Rattle.std.proofs.Math.Seq.{paste};
ghost use Rattle.classes.specs.Class.{merged};
ghost use Rattle.classes.specs.Group.{class_at, merged_at, removed, constant_at};
ghost use Rattle.classes.specs.Layout.{encode, decode, sum_to};
ghost use Rattle.classes.specs.Inner.{Coded, Room};

use crate::{Constant, Group};

// The empty group: every table starts from a repeated 0.
pub fn empty(limit: usize) -> Group
    ensures { result ≡ encode limit [] }
{
    Group {
        limit,
        count: 0,
        used: 0,
        sizes: [0usize; 64],
        flavours: [0u32; 64],
        values: [0u32; 64],
        members: [0u32; 256],
    }
}

// Where class j starts in the table of members: the sum of the sizes before it.
pub fn class_start(sizes: [usize; 64], j: usize) -> usize
    requires { (j ≤ 64) × (sum_to sizes j ≤ 256) }
    ensures { result ≡ sum_to sizes j }
{
    let mut sum = 0;
    for i in 0..j {
        sum += sizes[i];
    }
    sum
}

// The table `to` with n places from `at` on copied from the table `from`, from `start` on.
fn copy_members(to: [u32; 256], at: usize, from: [u32; 256], start: usize, n: usize) -> [u32; 256]
    requires { (at + n ≤ 256) × (start + n ≤ 256) }
    ensures { result ≡ paste to at (drop start from) n }
{
    let mut out = to;
    out[at..at + n].copy_from_slice(&from[start..start + n]);
    out
}

// The constant of class i.
pub fn constant_of(g: Group, i: usize) -> Constant
    requires { Coded g × (i < g.count) }
    ensures { result ≡ (class_at (decode g) i).constant }
{
    Constant::from_numbers(g.flavours[i], g.values[i])
}

// A group with class j of another at its end.
pub fn add_class(out: Group, src: Group, j: usize) -> Group
    requires { Room out src j × (out.count < 64) }
    ensures { result ≡ encode out.limit (decode out ++ (class_at (decode src) j ∷ [])) }
{
    let size = src.sizes[j];
    let sizes = src.sizes;
    let start = class_start(sizes, j);
    let at = out.count;
    let used = out.used;
    let flavour = src.flavours[j];
    let value = src.values[j];
    let to = out.members;
    let from = src.members;
    let members = copy_members(to, used, from, start, size);
    let mut next = out;
    next.members = members;
    next.sizes[at] = size;
    next.flavours[at] = flavour;
    next.values[at] = value;
    next.count = at + 1;
    next.used = used + size;
    next
}

// A group with class j of another merged into its last class.
pub fn merge_last(out: Group, src: Group, j: usize) -> Group
    requires { Room out src j × (0 < out.count) }
    ensures { result ≡ encode out.limit (merged_at (decode out) (out.count - 1) (class_at (decode src) j)) }
{
    let size = src.sizes[j];
    let sizes = src.sizes;
    let start = class_start(sizes, j);
    let last = out.count - 1;
    let used = out.used;
    let constant = constant_of(out, last).taken_over(constant_of(src, j));
    let to = out.members;
    let from = src.members;
    let members = copy_members(to, used, from, start, size);
    let grown = out.sizes[last] + size;
    let mut next = out;
    next.members = members;
    next.sizes[last] = grown;
    next.flavours[last] = constant.flavour();
    next.values[last] = constant.value();
    next.used = used + size;
    next
}

// A group with a constant over that of class i.
pub fn set_constant(g: Group, i: usize, new: Constant) -> Group
    requires { Coded g × (i < g.count) }
    ensures { result ≡ encode g.limit (constant_at (decode g) i new) }
{
    let constant = constant_of(g, i).taken_over(new);
    let mut next = g;
    next.flavours[i] = constant.flavour();
    next.values[i] = constant.value();
    next
}

// A group without class i: the last class moves into its gap.
pub fn remove_class_at_idx(g: Group, i: usize) -> Group
    requires { Coded g × (i < g.count) }
    ensures { result ≡ encode g.limit (removed (decode g) i) }
{
    let last = g.count - 1;
    let mut out = empty(g.limit);
    for k in 0..last {
        out = add_class(out, g, moved_place(k, i, last));
    }
    out
}

// The place that the class at k comes from when class i goes.
fn moved_place(k: usize, i: usize, last: usize) -> usize
    ensures { (k ≡ i → result ≡ last) × ((k ≡ i → ⊥) → result ≡ k) }
{
    if i == k { last } else { k }
}

// The next class of a group in which class j of another is merged into class i.
fn add_merged(out: Group, g: Group, k: usize, i: usize, src: Group, j: usize) -> Group
    requires { ((Coded out × (out.count < 64)) × (Coded g × (k < g.count))) × ((Coded src × (j < src.count)) × (out.used + length (class_at (merged_at (decode g) i (class_at (decode src) j)) k).members ≤ 256)) }
    ensures { result ≡ encode out.limit (decode out ++ (class_at (merged_at (decode g) i (class_at (decode src) j)) k ∷ [])) }
{
    let next = add_class(out, g, k);
    if k == i {
        merge_last(next, src, j)
    } else {
        next
    }
}

// A group with class j of another merged into its class i.
pub fn merge_class_at_idx(g: Group, i: usize, src: Group, j: usize) -> Group
    requires { (Coded g × (i < g.count)) × ((Coded src × (j < src.count)) × (g.used + get_or src.sizes j 0 ≤ 256)) }
    ensures { result ≡ encode g.limit (merged_at (decode g) i (class_at (decode src) j)) }
{
    let mut out = empty(g.limit);
    for k in 0..g.count {
        out = add_merged(out, g, k, i, src, j);
    }
    out
}

// The first member of class i.
pub fn first_member(g: Group, i: usize) -> u32
    requires { Coded g × ((i < g.count) × (0 < get_or g.sizes i 0)) }
    ensures { result ≡ get_or (class_at (decode g) i).members 0 0 }
{
    let sizes = g.sizes;
    let at = class_start(sizes, i);
    g.members[at]
}

// How many members class i has.
pub fn class_size(g: Group, i: usize) -> usize
    requires { Coded g × (i < g.count) }
    ensures { result ≡ length (class_at (decode g) i).members }
{
    g.sizes[i]
}
