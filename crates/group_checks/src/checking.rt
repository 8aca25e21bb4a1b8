// The check of a lent group: document 01's rules 12, 11 and 1, in that order.
ghost use Rattle.std.specs.Prelude.{Bool, true, false, not, ◌&&◌, ◌||◌, ◌≡◌, ◌≤◌, ◌<◌, ◌+◌, eqb, ltb, leb, length, get_or};
ghost use Rattle.laws.specs.Tests.{each};
ghost use Rattle.arena.specs.Node.{node_at};
ghost use Rattle.arena.specs.Layout.{decode as nodes};
ghost use Rattle.arena.specs.Inner.{Holds};
ghost use Rattle.classes.specs.Layout.{known_flavour, in_set, fresh, is_literal, uniform_at, unused_from, lawful_counts, lawful_group, members_inside, sum_to};
ghost use Rattle.arena.specs.Refusals.{outcome};
ghost use Rattle.classes.specs.Calls.{group_number};

use arena::Refusal;
use arena::cells::{cell_of, node_count, wide};
use arena::checking::lawful_arena;
use classes::Group;

// A flavour is one of the four, and a value other than 0 stands only where one is known.
#[tactic(auto, unfolding(classes::specs::Layout::known_flavour))]
pub fn known_flavour(flavour: u32, value: u32) -> bool
    ensures { result ≡ known_flavour flavour value }
{
    flavour == 3 || flavour < 3 && value == 0
}

// The flavour and value of class j, if there is one, are in their sets.
fn known_class(g: Group, j: usize) -> bool
    requires { j < 64 }
    ensures { result ≡ (not (ltb j g.count) || known_flavour (get_or g.flavours j 0) (get_or g.values j 0)) }
{
    g.count <= j || known_flavour(g.flavours[j], g.values[j])
}

// The flavour and value of each class are in their sets.
fn classes_known(g: Group) -> bool
    ensures { result ≡ each (λ j. not (ltb j g.count) || known_flavour (get_or g.flavours j 0) (get_or g.values j 0)) 64 }
{
    (0..64).all(|j| known_class(g, j))
}

// Every number of the group is in its set.
#[tactic(auto, unfolding(classes::specs::Layout::in_set))]
pub fn in_set(g: Group) -> bool
    ensures { result ≡ in_set g }
{
    0 < g.limit && g.limit <= 256 && classes_known(g)
}

// The first n classes have members.
fn sizes_filled(sizes: [usize; 64], n: usize) -> bool
    requires { n ≤ 64 }
    ensures { result ≡ each (λ j. ltb 0 (get_or sizes j 0)) n }
{
    (0..n).all(|j| sizes[j] != 0)
}

// The sizes of the first n classes come to `used`. The sum is never let past it.
fn sizes_agree(sizes: [usize; 64], n: usize, used: usize) -> bool
    requires { n ≤ 64 }
    ensures { result ≡ eqb (sum_to sizes n) used }
{
    let mut left = used;
    for j in 0..n {
        let size = sizes[j];
        if left < size {
            return false;
        }
        left -= size;
    }
    left == 0
}

// The counts are within their bounds and agree.
#[tactic(auto, unfolding(classes::specs::Layout::lawful_counts))]
fn lawful_counts(g: Group) -> bool
    ensures { result ≡ lawful_counts g }
{
    let sizes = g.sizes;
    g.count <= 64
        && g.used <= g.limit
        && sizes_filled(sizes, g.count)
        && sizes_agree(sizes, g.count, g.used)
}

// No member before place k is the one at k.
fn fresh_member(members: &[u32; 256], k: usize) -> bool
    requires { k < 256 }
    ensures { result ≡ fresh members.now k }
{
    (0..k).all(|i| members[i] != members[k])
}

// No member stands twice.
fn members_fresh(members: &[u32; 256], n: usize) -> bool
    requires { n ≤ 256 }
    ensures { result ≡ each (λ k. fresh members.now k) n }
{
    (0..n).all(|k| fresh_member(members, k))
}

// Every member is below n.
pub fn members_below(members: &[u32; 256], used: usize, n: usize) -> bool
    requires { used ≤ 256 }
    ensures { result ≡ each (λ k. ltb (get_or members.now k 0) n) used }
{
    (0..used).all(|k| wide(members[k]) < n)
}

// A number is that of a literal.
fn literal_at(cells: &[u32; 11265], e: u32) -> bool
    requires { Holds cells.now }
    ensures { result ≡ (ltb e (length (nodes cells.now)) && is_literal (node_at (nodes cells.now) e)) }
{
    let i = wide(e);
    i < node_count(cells) && cell_of(cells, i, 0) == 2
}

// A member may stand in a class of a flavour: a literal only in a uniform one.
pub fn member_fits(cells: &[u32; 11265], e: u32, flavour: u32) -> bool
    requires { Holds cells.now }
    ensures { result ≡ (not (ltb e (length (nodes cells.now)) && is_literal (node_at (nodes cells.now) e)) || leb 2 flavour) }
{
    !literal_at(cells, e) || 2 <= flavour
}

// A literal's class is uniform: of class j, whose members start at a place.
fn uniform_class(cells: &[u32; 11265], g: Group, j: usize, start: usize) -> bool
    requires { (Holds cells.now × (j < 64)) × ((start ≡ sum_to g.sizes j) × (start + get_or g.sizes j 0 ≤ 256)) }
    ensures { result ≡ uniform_at (nodes cells.now) g j }
{
    let flavour = g.flavours[j];
    (0..g.sizes[j]).all(|k| member_fits(cells, g.members[start + k], flavour))
}

// Every literal's class is uniform.
fn classes_uniform(cells: &[u32; 11265], g: Group) -> bool
    requires { Holds cells.now × ((g.count ≤ 64) × (sum_to g.sizes g.count ≤ 256)) }
    ensures { result ≡ each (λ j. uniform_at (nodes cells.now) g j) g.count }
{
    let mut start = 0;
    for j in 0..g.count {
        if !uniform_class(cells, g, j, start) {
            return false;
        }
        start += g.sizes[j];
    }
    true
}

// The places of a table of sizes after the first n are 0.
fn sizes_unused(sizes: &[usize], n: usize) -> bool
    requires { n ≤ length sizes.now }
    ensures { result ≡ unused_from n (length sizes.now) sizes.now }
{
    sizes[n..].iter().all(|size| *size == 0)
}

// The places of a table of numbers after the first n are 0.
fn numbers_unused(numbers: &[u32], n: usize) -> bool
    requires { n ≤ length numbers.now }
    ensures { result ≡ unused_from n (length numbers.now) numbers.now }
{
    numbers[n..].iter().all(|number| *number == 0)
}

// Every unused place of the group is 0.
fn group_unused(g: Group) -> bool
    requires { (g.count ≤ 64) × (g.used ≤ 256) }
    ensures { result ≡ (unused_from g.count 64 g.sizes && unused_from g.count 64 g.flavours && unused_from g.count 64 g.values && unused_from g.used 256 g.members) }
{
    sizes_unused(&g.sizes, g.count)
        && numbers_unused(&g.flavours, g.count)
        && numbers_unused(&g.values, g.count)
        && numbers_unused(&g.members, g.used)
}

// The group obeys rule 11.
#[tactic(auto, unfolding(classes::specs::Layout::lawful_group))]
pub fn lawful_group(cells: &[u32; 11265], g: Group) -> bool
    requires { Holds cells.now × (g.limit ≤ 256) }
    ensures { result ≡ lawful_group (nodes cells.now) g }
{
    if !lawful_counts(g) {
        return false;
    }
    members_fresh(&g.members, g.used) && classes_uniform(cells, g) && group_unused(g)
}

// The check of a lent group over a lent arena. Refusals: 12, 11, 1.
pub fn check_group(cells: &[u32; 11265], g: Group) -> Result<(), Refusal>
    ensures { result ≡ outcome (group_number cells.now g) }
{
    if !in_set(g) {
        return Err(Refusal::BadNumber);
    }
    if !lawful_arena(cells) {
        return Err(Refusal::BadState);
    }
    if !lawful_group(cells, g) {
        return Err(Refusal::BadState);
    }
    let n = node_count(cells);
    if !members_below(&g.members, g.used, n) {
        return Err(Refusal::UnknownExpression);
    }
    Ok(())
}
