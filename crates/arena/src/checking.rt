// The check of a lent arena: document 01's rule 11.
ghost use Rattle.std.specs.Prelude.{◌≡◌, ◌≤◌, ◌<◌, ◌+◌, eqb, length};
ghost use Rattle.arena.specs.Layout.{same_row, row_below, lawful_kind, children_below, places_unused, lawful_row, lawful_node, cells_unused, lawful};
ghost use Rattle.laws.specs.Tests.{each};

use crate::cells::{cell_of, node_count, row_of, wide};

// Node i has this row.
fn same_row(cells: &[u32; 11265], i: usize, row: &[u32; 11]) -> bool
    requires { i < 1024 }
    ensures { result ≡ same_row cells.now i row.now }
{
    (0..11).all(|j| cell_of(cells, i, j) == row[j])
}

// The first of the first n nodes that has this row.
pub fn row_below(cells: &[u32; 11265], n: usize, row: &[u32; 11]) -> Option<usize>
    requires { n ≤ 1024 }
    ensures { result ≡ row_below cells.now n row.now }
{
    (0..n).find(|i| same_row(cells, *i, row))
}

// A node of this kind may have this many children.
#[tactic(auto, unfolding(crate::specs::Layout::lawful_kind))]
fn lawful_kind(kind: u32, children: u32) -> bool
    ensures { result ≡ lawful_kind kind children }
{
    match kind {
        1 | 2 => children == 0,
        3 => children <= 8,
        _ => false,
    }
}

// The first n children of a row are below i.
fn children_below(row: &[u32; 11], n: usize, i: usize) -> bool
    requires { n ≤ 8 }
    ensures { result ≡ children_below i n row.now }
{
    (0..n).all(|k| wide(row[3 + k]) < i)
}

// The places for children after the first n are 0.
fn places_unused(row: &[u32; 11], n: usize) -> bool
    requires { n ≤ 8 }
    ensures { result ≡ places_unused n row.now }
{
    (0..8 - n).all(|k| row[3 + n + k] == 0)
}

// A row may stand at number i.
#[tactic(auto, unfolding(crate::specs::Layout::lawful_row))]
fn lawful_row(i: usize, row: &[u32; 11]) -> bool
    ensures { result ≡ lawful_row i row.now }
{
    let n = row[2];
    lawful_kind(row[0], n) && children_below(row, wide(n), i) && places_unused(row, wide(n))
}

// Node i is lawful, and no earlier node equals it.
#[tactic(auto, unfolding(crate::specs::Layout::lawful_node))]
fn lawful_node(cells: &[u32; 11265], i: usize) -> bool
    requires { i < 1024 }
    ensures { result ≡ lawful_node cells.now i }
{
    let row = row_of(cells, i);
    lawful_row(i, &row) && row_below(cells, i, &row).is_none()
}

// The cells after the first n nodes are 0.
fn cells_unused(cells: &[u32; 11265], n: usize) -> bool
    requires { n ≤ 1024 }
    ensures { result ≡ cells_unused n cells.now }
{
    (0..11264 - 11 * n).all(|k| cells[1 + 11 * n + k] == 0)
}

// There are 11,265 cells. Of a reference to an array that is always so; the contracts above speak of lists.
fn sized(cells: &[u32]) -> bool
    ensures { result ≡ eqb (length cells.now) 11265 }
{
    cells.len() == 11265
}

// Each of the first n nodes is lawful.
fn lawful_nodes(cells: &[u32; 11265], n: usize) -> bool
    requires { n ≤ 1024 }
    ensures { result ≡ each (λ i. lawful_node cells.now i) n }
{
    (0..n).all(|i| lawful_node(cells, i))
}

// The cells are an arena.
#[tactic(auto, unfolding(crate::specs::Layout::lawful))]
pub fn lawful_arena(cells: &[u32; 11265]) -> bool
    ensures { result ≡ lawful cells.now }
{
    let n = node_count(cells);
    sized(cells) && n <= 1024 && lawful_nodes(cells, n) && cells_unused(cells, n)
}
