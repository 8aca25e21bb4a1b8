// The normal forms of the sources of a mapping, in their order.
ghost use Rattle.std.specs.Prelude.{is_ok, IsOkUnless, ◌≡◌, ℕ, ◌≤◌, ◌<◌, length, get_or, take};
ghost use Rattle.arena.specs.declared.Refusal.TheVariants.{ArenaFull};
ghost use Rattle.mappings.specs.Mapping.{sources};
ghost use Rattle.mappings.specs.Layout.{decode as mapping};
ghost use Rattle.group_projection.specs.Inner.{members_of, FormsReady, Formed};

use arena::Refusal;
use mappings::Mapping;
use normal::normalizing::normalize;

// Adds the missing nodes of the sources' normal forms: their numbers, in a table of 64 places. Refusal: 3.
pub fn source_forms(
    cells: &mut [u32; 11265],
    firsts: &[u32; 1024],
    m: Mapping,
    old: usize,
) -> Result<[u32; 64], Refusal>
    requires { FormsReady old firsts.now cells.old m }
    ensures { Formed old firsts.now cells.old cells.new (sources (mapping m)) (is_ok result) (take m.count (members_of result)) × IsOkUnless result ArenaFull }
{
    let mut memo = [0u32; 1024];
    let mut numbers = [0u32; 64];
    for i in 0..m.count {
        let Ok(e) = normalize(cells, firsts, &mut memo, m.list[i].expr, old) else {
            return Err(Refusal::ArenaFull);
        };
        numbers[i] = e;
    }
    Ok(numbers)
}
