// A mapping that is lent as numbers: for each source the source, its target count and its targets.
ghost use Rattle.std.specs.Prelude.{true, not, ◌&&◌, ◌≡◌, ℕ, ◌≤◌, ◌<◌, ◌+◌, leb, length, get_or};
ghost use Rattle.laws.specs.Tests.{each};
ghost use Rattle.arena.specs.Refusals.{outcome};
ghost use Rattle.classes.specs.Layout.{fresh};
ghost use Rattle.mappings.specs.Mapping.{sources, sources_apart, mapped_below, mapping_below};
ghost use Rattle.mappings.specs.Lent.{target_count, empty_at, targets_given, whole_at, whole, mapped_lent, mapping_lent, lawful_mapping};
ghost use Rattle.mappings.specs.Layout.{unused, place_in, mapped_of, decode, Bounded};
ghost use Rattle.mappings.specs.Calls.{project_number};

use crate::{Mapping, Source};
use arena::Refusal;
use arena::cells::{node_count, wide};
use classes::Group;
use group_checks::checking::{check_group, in_set};
use lent_classes::lent::number_at;

// How many targets the source at a place has.
fn count_at(numbers: &[u32], at: usize) -> usize
    requires { at < length numbers.now }
    ensures { (result ≡ target_count numbers.now at) × (result < 4294967296) }
{
    wide(number_at(numbers, at + 1))
}

// The source at a place says that it has no targets.
#[tactic(auto, unfolding(crate::specs::Lent::empty_at))]
fn empty_at(numbers: &[u32], at: usize) -> bool
    requires { at < length numbers.now }
    ensures { result ≡ empty_at numbers.now at }
{
    at + 1 < numbers.len() && count_at(numbers, at) == 0
}

// No source says that it has no targets.
fn targets_given(numbers: &[u32]) -> bool
    ensures { result ≡ targets_given numbers.now }
{
    let n = numbers.len();
    let mut at = 0;
    // The count of a source decides where the next one begins.
    while at < n {
        if empty_at(numbers, at) {
            return false;
        }
        at += 2 + count_at(numbers, at);
    }
    true
}

// The source at a place has at most 8 targets, and they are there.
#[tactic(auto, unfolding(crate::specs::Lent::whole_at, crate::specs::Lent::next_source))]
fn whole_at(numbers: &[u32], at: usize) -> bool
    requires { at < length numbers.now }
    ensures { result ≡ whole_at numbers.now at }
{
    let size = count_at(numbers, at);
    at + 2 + size <= numbers.len() && size <= 8
}

// Each source has at most 8 targets, and they are there.
fn is_whole(numbers: &[u32]) -> bool
    ensures { result ≡ whole numbers.now }
{
    let n = numbers.len();
    let mut at = 0;
    // The count of a source decides where the next one begins.
    while at < n {
        if !whole_at(numbers, at) {
            return false;
        }
        at += 2 + count_at(numbers, at);
    }
    true
}

// There are at most 64 sources.
fn sources_few(numbers: &[u32]) -> bool
    ensures { result ≡ leb (length (mapping_lent numbers.now)) 64 }
{
    let n = numbers.len();
    let mut count = 0usize;
    let mut at = 0;
    // The count of a source decides where the next one begins.
    while at < n {
        if 64 <= count {
            return false;
        }
        count += 1;
        at += 2 + count_at(numbers, at);
    }
    true
}

// The source at a place with its targets.
fn source_at(numbers: &[u32], at: usize) -> Source
    requires { (at < length numbers.now) × (whole_at numbers.now at ≡ true) }
    ensures { (mapped_of result ≡ mapped_lent numbers.now at) × (result.size ≡ target_count numbers.now at) }
{
    let size = count_at(numbers, at);
    let mut targets = [0u32; 8];
    targets[..size].copy_from_slice(&numbers[at + 2..at + 2 + size]);
    Source {
        expr: numbers[at],
        size: size,
        targets: targets,
    }
}

// No source.
fn nothing() -> Source
    ensures { result ≡ unused }
{
    Source {
        expr: 0,
        size: 0,
        targets: [0u32; 8],
    }
}

// The mapping in its struct.
pub fn read_mapping(numbers: &[u32]) -> Mapping
    requires { (whole numbers.now ≡ true) × (length (mapping_lent numbers.now) ≤ 64) }
    ensures { (decode result ≡ mapping_lent numbers.now) × (result.count ≤ 64) }
{
    let n = numbers.len();
    let mut out = Mapping {
        count: 0,
        list: [nothing(); 64],
    };
    let mut at = 0;
    // The count of a source decides where the next one begins.
    while at < n {
        let end = out.count;
        out.list[end] = source_at(numbers, at);
        out.count = end + 1;
        at += 2 + count_at(numbers, at);
    }
    out
}

// Source k does not stand before its place.
fn source_fresh(m: Mapping, k: usize) -> bool
    requires { (m.count ≤ 64) × (k < m.count) }
    ensures { result ≡ fresh (sources (decode m)) k }
{
    (0..k).all(|i| m.list[i].expr != m.list[k].expr)
}

// No source stands twice.
fn sources_apart(m: Mapping) -> bool
    requires { m.count ≤ 64 }
    ensures { result ≡ sources_apart (decode m) }
{
    (0..m.count).all(|k| source_fresh(m, k))
}

// The mapping keeps document 01's rules.
#[tactic(auto, unfolding(crate::specs::Lent::lawful_mapping))]
fn lawful_mapping(numbers: &[u32]) -> bool
    ensures { result ≡ lawful_mapping numbers.now }
{
    is_whole(numbers) && sources_few(numbers) && sources_apart(read_mapping(numbers))
}

// A source and its targets are below n.
fn source_below(source: Source, n: usize) -> bool
    requires { source.size ≤ 8 }
    ensures { result ≡ mapped_below n (mapped_of source) }
{
    wide(source.expr) < n && (0..source.size).all(|k| wide(source.targets[k]) < n)
}

// Every source and target is below n.
fn mapping_below(m: Mapping, n: usize) -> bool
    requires { (m.count ≤ 64) × ((i : ℕ) → i < m.count → (place_in m i).size ≤ 8) }
    ensures { result ≡ mapping_below n (decode m) }
{
    (0..m.count).all(|i| source_below(m.list[i], n))
}

// The check of what a projection is lent. Refusals: 12, 11, 1, whichever is first.
pub fn project_number(cells: &[u32; 11265], g: Group, numbers: &[u32]) -> Result<(), Refusal>
    ensures { result ≡ outcome (project_number cells.now g numbers.now) }
{
    if !targets_given(numbers) {
        return Err(Refusal::BadNumber);
    }
    if !in_set(g) {
        return Err(Refusal::BadNumber);
    }
    if !lawful_mapping(numbers) {
        return Err(Refusal::BadState);
    }
    check_group(cells, g)?;
    if !mapping_below(read_mapping(numbers), node_count(cells)) {
        return Err(Refusal::UnknownExpression);
    }
    Ok(())
}
