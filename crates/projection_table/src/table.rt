// The table of the projections, over an arena, a group and a mapping that are checked already: for each node 0 where it
// has no projection, 1 where it is an operation over those of its children, and i + 2 where it is expression i. Each
// node is looked at once.
ghost use Rattle.std.specs.Prelude.{not, ◌≡◌, ℕ, ◌≤◌, ◌<◌, eqb, length, get_or};
ghost use Rattle.laws.specs.Tests.{each};
ghost use Rattle.arena.specs.Node.{node_at, child_numbers};
ghost use Rattle.arena.specs.Layout.{count, decode as nodes};
ghost use Rattle.arena.specs.Inner.{Holds, Known};
ghost use Rattle.classes.specs.Layout.{decode as classes};
ghost use Rattle.classes.specs.Inner.{Coded};
ghost use Rattle.questions.specs.Inner.{Placed, same_place};
ghost use Rattle.mappings.specs.Mapping.{target_for};
ghost use Rattle.mappings.specs.Layout.{decode, Checked};
ghost use Rattle.projection_table.specs.Projecting.{becomes, projections};
ghost use Rattle.projection_table.specs.Inner.{entry_of, Says, Tabled};

use arena::cells::{cell_of, narrow, node_count, wide};
use arena::reading::{child_count, child_in};
use classes::Group;
use mappings::Mapping;
use questions::questions::{class_places, same_place};

// The entry of a mapped source: its first target.
fn source_entry(m: Mapping, e: u32) -> u32
    requires { Checked 1024 m }
    ensures { result ≡ entry_of (target_for (λ s. eqb s e) (decode m)) }
{
    for i in 0..m.count {
        let source = m.list[i];
        if source.expr == e {
            return source.targets[0] + 2;
        }
    }
    0
}

// The entry of an expression that is in one class with a source: the first target of the first such source.
fn class_entry(m: Mapping, places: &[u32; 1024], e: u32) -> u32
    requires { Checked 1024 m × (e < 1024) }
    ensures { result ≡ entry_of (target_for (λ s. same_place places.now s e) (decode m)) }
{
    for i in 0..m.count {
        let one = m.list[i];
        if same_place(places, wide(one.expr), wide(e)) {
            return one.targets[0] + 2;
        }
    }
    0
}

// The entry of what becomes of expression e as a whole; 0 where nothing does.
fn whole_entry(cells: &[u32; 11265], g: Group, m: Mapping, places: &[u32; 1024], e: u32) -> u32
    requires { (Known cells.now e × Checked (count cells.now) m) × Placed (classes g) (count cells.now) places.now }
    ensures { result ≡ entry_of (becomes (nodes cells.now) (classes g) (decode m) e) }
{
    let own = source_entry(m, e);
    if own != 0 {
        return own;
    }
    if cell_of(cells, wide(e), 0) == 2 {
        return e + 2;
    }
    class_entry(m, places, e)
}

// The children of node e all have projections, by the table of the nodes before it.
fn children_project(cells: &[u32; 11265], table: &[u32; 1024], e: usize) -> bool
    requires { Known cells.now e }
    ensures { result ≡ each (λ k. not (eqb (get_or table.now (get_or (child_numbers (node_at (nodes cells.now) e)) k 0) 0) 0)) (length (child_numbers (node_at (nodes cells.now) e))) }
{
    (0..child_count(cells, e)).all(|k| table[wide(child_in(cells, e, k))] != 0)
}

// The entry of node e, by the table of the nodes before it.
fn node_entry(
    cells: &[u32; 11265],
    g: Group,
    m: Mapping,
    places: &[u32; 1024],
    table: &[u32; 1024],
    e: usize,
) -> u32
    requires { ((Known cells.now e × Checked (count cells.now) m) × Placed (classes g) (count cells.now) places.now) × ((j : ℕ) → j < e → Says (nodes cells.now) (projections (nodes cells.now) (classes g) (decode m)) (nodes cells.now) j (get_or table.now j 0)) }
    ensures { Says (nodes cells.now) (projections (nodes cells.now) (classes g) (decode m)) (nodes cells.now) e result }
{
    let whole = whole_entry(cells, g, m, places, narrow(e));
    if whole != 0 {
        return whole;
    }
    if child_count(cells, e) == 0 {
        return 0;
    }
    if children_project(cells, table, e) {
        1
    } else {
        0
    }
}

// The table of all nodes.
pub fn projection_table(cells: &[u32; 11265], g: Group, m: Mapping) -> [u32; 1024]
    requires { (Holds cells.now × Checked (count cells.now) m) × Coded g }
    ensures { Tabled (nodes cells.now) (projections (nodes cells.now) (classes g) (decode m)) (nodes cells.now) result }
{
    let n = node_count(cells);
    let places = class_places(g, n);
    let mut table = [0u32; 1024];
    for e in 0..n {
        let entry = node_entry(cells, g, m, &places, &table, e);
        table[e] = entry;
    }
    table
}
