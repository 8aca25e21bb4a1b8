// The constants of the sources, said of each of their targets.
ghost use Rattle.std.specs.Prelude.{true, [], ◌∷◌, ◌++◌, map, ◌≡◌, ℕ, ◌≤◌, ◌<◌, get_or};
ghost use Rattle.arena.specs.Layout.{count, decode as nodes};
ghost use Rattle.arena.specs.Inner.{Holds};
ghost use Rattle.classes.specs.Layout.{decode};
ghost use Rattle.classes.specs.Inner.{Coded};
ghost use Rattle.mappings.specs.Layout.{mapped_of, decode as mapping, Checked};
ghost use Rattle.group_projection.specs.Group.{new_constants, constants_said};
ghost use Rattle.group_projection.specs.Inner.{made_or_none, Made};

use arena::Refusal;
use classes::{Constant, Group};
use conditions::constants::add_constant_in;
use mappings::{Mapping, Source};
use questions::questions::constant_in;

// A constant is said of each target of a source. Refusal: 4.
fn say_targets(
    cells: &[u32; 11265],
    out: Group,
    source: Source,
    said: Constant,
) -> Result<Group, Refusal>
    requires { (Holds cells.now × Made (nodes cells.now) out) × ((source.size ≤ 8) × ((k : ℕ) → k < source.size → get_or source.targets k 0 < count cells.now)) }
    ensures { result ≡ made_or_none (constants_said true (nodes cells.now) (map (λ (t : ℕ). (t, said)) (mapped_of source).targets) (decode out)) }
{
    let mut group = out;
    for k in 0..source.size {
        let step = add_constant_in(cells, group, source.targets[k], said);
        step.answer?;
        group = step.group;
    }
    Ok(group)
}

// The constant of a source in a group, if it has one, is said of each of its targets in another. Refusal: 4.
fn say_source(cells: &[u32; 11265], g: Group, out: Group, source: Source) -> Result<Group, Refusal>
    requires { ((Holds cells.now × Made (nodes cells.now) out) × (Coded g × (source.expr < count cells.now))) × ((source.size ≤ 8) × ((k : ℕ) → k < source.size → get_or source.targets k 0 < count cells.now)) }
    ensures { result ≡ made_or_none (constants_said true (nodes cells.now) (new_constants (nodes cells.now) (decode g) (mapped_of source ∷ [])) (decode out)) }
{
    match constant_in(cells, g, source.expr) {
        Constant::NoConstant => Ok(out),
        said => say_targets(cells, out, source, said),
    }
}

// The constants of the sources in a group are said of their targets in another. Refusal: 4.
pub fn source_constants(
    cells: &[u32; 11265],
    g: Group,
    m: Mapping,
    out: Group,
) -> Result<Group, Refusal>
    requires { (Holds cells.now × Made (nodes cells.now) out) × (Coded g × Checked (count cells.now) m) }
    ensures { result ≡ made_or_none (constants_said true (nodes cells.now) (new_constants (nodes cells.now) (decode g) (mapping m)) (decode out)) }
{
    let mut group = out;
    for i in 0..m.count {
        group = say_source(cells, g, group, m.list[i])?;
    }
    Ok(group)
}
