// The list of classes that reaches `new`: the members' projections class by class, then the targets of sources with one
// normal form; a class that says nothing is left out.
ghost use Rattle.std.specs.Prelude.{Bool, true, [], ◌∷◌, ◌++◌, ◌≡◌, ℕ, ◌≤◌, ◌<◌, ◌+◌, length, get_or, take, drop, if◌then◌else◌};
ghost use Rattle.arena.specs.Layout.{count, decode as nodes};
ghost use Rattle.arena.specs.Inner.{Holds, Known};
ghost use Rattle.classes.specs.Group.{class_at};
ghost use Rattle.classes.specs.Good.{flat};
ghost use Rattle.classes.specs.Layout.{encode, decode, fresh};
ghost use Rattle.classes.specs.Inner.{Coded};
ghost use Rattle.merging.specs.Extending.{pushed, pushed_all, class_from};
ghost use Rattle.mappings.specs.Layout.{mapped_of, decode as mapping, Checked};
ghost use Rattle.projection.specs.Inner.{answer_of, answers_in};
ghost use Rattle.group_projection.specs.Group.{there, projected_classes, targets_of, source_classes, telling, projected_list};
ghost use Rattle.group_projection.specs.Inner.{listed, One, List256, Entries};

use arena::Refusal;
use arena::cells::wide;
use classes::building::{add_class, empty, set_constant};
use classes::single::carried;
use classes::{Constant, Group};
use mappings::{Mapping, Source};
use merging::extending::{class_holds, is_trivial, one_empty, push};

// The class of one with the projection that an entry of the table says, if it says one.
fn push_entry(cells: &[u32; 11265], one: Group, entry: u32) -> Group
    requires { (One one × (one.used < 256)) × (Holds cells.now × (entry < count cells.now + 2)) }
    ensures { result ≡ encode 256 (pushed_all (nodes cells.now) (class_at (decode one) 0) (there (answer_of entry ∷ [])) ∷ []) }
{
    if entry < 2 {
        return one;
    }
    push(cells, one, entry - 2)
}

// The class of the projections of n members from a place on, by the table.
fn projected_class(
    cells: &[u32; 11265],
    table: &[u32; 1024],
    members: [u32; 256],
    start: usize,
    n: usize,
) -> Group
    requires { (Holds cells.now × (start + n ≤ 256)) × Entries (count cells.now) table.now (drop start members) n }
    ensures { result ≡ encode 256 (class_from (nodes cells.now) (there (answers_in table.now (take n (drop start members)))) ∷ []) }
{
    let mut one = one_empty(Constant::NoConstant);
    for k in 0..n {
        let e = wide(members[start + k]);
        one = push_entry(cells, one, table[e]);
    }
    one
}

// The list with a class at its end, if the class says something. Refusal: 4.
fn keep_class(out: Group, one: Group) -> Result<Group, Refusal>
    requires { List256 out × One one }
    ensures { result ≡ listed (decode out ++ telling (class_at (decode one) 0 ∷ [])) }
{
    if is_trivial(one, 0) {
        return Ok(out);
    }
    if 64 <= out.count || 256 < out.used + one.used {
        return Err(Refusal::GroupFull);
    }
    Ok(add_class(out, one, 0))
}

// The classes of the members' projections that say something, by the table. Refusal: 4.
fn projected_classes(cells: &[u32; 11265], table: &[u32; 1024], g: Group) -> Result<Group, Refusal>
    requires { (Holds cells.now × Coded g) × Entries (count cells.now) table.now g.members g.used }
    ensures { result ≡ listed (telling (projected_classes (nodes cells.now) (decode g) (answers_in table.now (flat (decode g))))) }
{
    let members = g.members;
    let mut out = empty(256);
    let mut start = 0;
    for j in 0..g.count {
        let size = g.sizes[j];
        out = keep_class(out, projected_class(cells, table, members, start, size))?;
        start += size;
    }
    Ok(out)
}

// The class of one with a target pushed. Refusal: 4.
fn push_target(cells: &[u32; 11265], one: Group, e: u32) -> Result<Group, Refusal>
    requires { One one × Known cells.now e }
    ensures { result ≡ listed (pushed (nodes cells.now) (class_at (decode one) 0) e ∷ []) }
{
    if one.used < 256 {
        return Ok(push(cells, one, e));
    }
    if class_holds(one, 0, e) {
        return Ok(set_constant(one, 0, carried(cells, e)));
    }
    Err(Refusal::GroupFull)
}

// The class of one with the targets of a source pushed. Refusal: 4.
fn push_targets(cells: &[u32; 11265], one: Group, source: Source) -> Result<Group, Refusal>
    requires { (One one × Holds cells.now) × ((source.size ≤ 8) × ((k : ℕ) → k < source.size → get_or source.targets k 0 < count cells.now)) }
    ensures { result ≡ listed (pushed_all (nodes cells.now) (class_at (decode one) 0) (mapped_of source).targets ∷ []) }
{
    let mut out = one;
    for k in 0..source.size {
        out = push_target(cells, out, source.targets[k])?;
    }
    Ok(out)
}

// The same where the source has the normal form that is asked for, else the class as it is. Refusal: 4.
fn push_source(
    cells: &[u32; 11265],
    one: Group,
    source: Source,
    same: bool,
) -> Result<Group, Refusal>
    requires { (One one × Holds cells.now) × ((source.size ≤ 8) × ((k : ℕ) → k < source.size → get_or source.targets k 0 < count cells.now)) }
    ensures { result ≡ listed (pushed_all (nodes cells.now) (class_at (decode one) 0) (if same then (mapped_of source).targets else []) ∷ []) }
{
    if same {
        return push_targets(cells, one, source);
    }
    Ok(one)
}

// The class of the targets of the sources with a normal form. Refusal: 4.
fn source_class(
    cells: &[u32; 11265],
    m: Mapping,
    numbers: [u32; 64],
    form: u32,
) -> Result<Group, Refusal>
    requires { Holds cells.now × Checked (count cells.now) m }
    ensures { result ≡ listed (class_from (nodes cells.now) (targets_of form (take m.count numbers) (mapping m)) ∷ []) }
{
    let mut one = one_empty(Constant::NoConstant);
    for i in 0..m.count {
        one = push_source(cells, one, m.list[i], numbers[i] == form)?;
    }
    Ok(one)
}

// The normal form at a place does not stand before it.
fn form_fresh(numbers: [u32; 64], n: usize, i: usize) -> bool
    requires { (i < n) × (n ≤ 64) }
    ensures { result ≡ fresh (take n numbers) i }
{
    (0..i).all(|k| numbers[k] != numbers[i])
}

// The list with the class of the normal form at a place, where it stands first. Refusal: 4.
fn add_source_class(
    cells: &[u32; 11265],
    out: Group,
    m: Mapping,
    numbers: [u32; 64],
    i: usize,
) -> Result<Group, Refusal>
    requires { (List256 out × (i < m.count)) × (Holds cells.now × Checked (count cells.now) m) }
    ensures { result ≡ listed (decode out ++ telling (if fresh (take m.count numbers) i then class_from (nodes cells.now) (targets_of (get_or (take m.count numbers) i 0) (take m.count numbers) (mapping m)) ∷ [] else [])) }
{
    if !form_fresh(numbers, m.count, i) {
        return Ok(out);
    }
    keep_class(out, source_class(cells, m, numbers, numbers[i])?)
}

// The list with the classes of the sources' targets that say something. Refusal: 4.
fn source_classes(
    cells: &[u32; 11265],
    list: Group,
    m: Mapping,
    numbers: [u32; 64],
) -> Result<Group, Refusal>
    requires { List256 list × (Holds cells.now × Checked (count cells.now) m) }
    ensures { result ≡ listed (decode list ++ telling (source_classes (nodes cells.now) (take m.count numbers) (mapping m) m.count)) }
{
    let mut out = list;
    for i in 0..m.count {
        out = add_source_class(cells, out, m, numbers, i)?;
    }
    Ok(out)
}

// The list that reaches `new`, by the table and the numbers of the sources' normal forms. Refusal: 4.
pub fn projected_list(
    cells: &[u32; 11265],
    table: &[u32; 1024],
    g: Group,
    m: Mapping,
    numbers: [u32; 64],
) -> Result<Group, Refusal>
    requires { ((Holds cells.now × Checked (count cells.now) m) × Coded g) × Entries (count cells.now) table.now g.members g.used }
    ensures { result ≡ listed (projected_list (nodes cells.now) (decode g) (mapping m) (answers_in table.now (flat (decode g))) (take m.count numbers)) }
{
    source_classes(cells, projected_classes(cells, table, g)?, m, numbers)
}
