// The checks of what an enumeration is lent and given: 12, 11, 1.
ghost use Rattle.std.specs.Prelude.{◌≡◌};
ghost use Rattle.arena.specs.Refusals.{outcome};
ghost use Rattle.dependency_orderings.specs.Calls.{prefix_number, generate_number};

use arena::Refusal;
use arena::cells::{node_count, wide};
use dependencies::DependencyMap;
use dependencies::checking::check_map;
use sort_keys::keys::{exprs_below, options_known};

// The check of a map and a key.
#[tactic(auto, unfolding(crate::specs::Calls::prefix_number, arena::specs::Refusals::outcome, arena::specs::Refusals::refusal))]
pub fn prefix_number(
    cells: &[u32; 11265],
    m: DependencyMap,
    expr: u32,
    options: u32,
) -> Result<(), Refusal>
    ensures { result ≡ outcome (prefix_number cells.now m expr options) }
{
    if 3 < options {
        return Err(Refusal::BadNumber);
    }
    check_map(cells, m)?;
    if node_count(cells) <= wide(expr) {
        return Err(Refusal::UnknownExpression);
    }
    Ok(())
}

// The check of a map and keys.
#[tactic(auto, unfolding(crate::specs::Calls::generate_number, arena::specs::Refusals::outcome, arena::specs::Refusals::refusal))]
pub fn generate_number(cells: &[u32; 11265], m: DependencyMap, keys: &[u32]) -> Result<(), Refusal>
    ensures { result ≡ outcome (generate_number cells.now m keys.now) }
{
    if !options_known(keys) {
        return Err(Refusal::BadNumber);
    }
    if keys.len() % 2 != 0 {
        return Err(Refusal::BadState);
    }
    check_map(cells, m)?;
    if !exprs_below(keys, node_count(cells)) {
        return Err(Refusal::UnknownExpression);
    }
    Ok(())
}
