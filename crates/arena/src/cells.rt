// Reading the cells of an arena.
ghost use Rattle.std.specs.Prelude.{◌≡◌, ◌≤◌, ◌<◌};
ghost use Rattle.arena.specs.Layout.{count, cell_of, row_of};

// A 32-bit number as an index.
pub fn wide(x: u32) -> usize
    ensures { result ≡ x }
{
    x as usize
}

// A number of a node, or the count of nodes, as it stands in a cell.
pub fn narrow(i: usize) -> u32
    requires { i ≤ 1024 }
    ensures { result ≡ i }
{
    i as u32
}

// How many nodes there are.
pub fn node_count(cells: &[u32; 11265]) -> usize
    ensures { result ≡ count cells.now }
{
    wide(cells[0])
}

// Cell j of node i.
pub fn cell_of(cells: &[u32; 11265], i: usize, j: usize) -> u32
    requires { (i < 1024) × (j < 11) }
    ensures { result ≡ cell_of cells.now i j }
{
    cells[1 + 11 * i + j]
}

// The 11 cells of node i.
pub fn row_of(cells: &[u32; 11265], i: usize) -> [u32; 11]
    requires { i < 1024 }
    ensures { result ≡ row_of cells.now i }
{
    [
        cell_of(cells, i, 0),
        cell_of(cells, i, 1),
        cell_of(cells, i, 2),
        cell_of(cells, i, 3),
        cell_of(cells, i, 4),
        cell_of(cells, i, 5),
        cell_of(cells, i, 6),
        cell_of(cells, i, 7),
        cell_of(cells, i, 8),
        cell_of(cells, i, 9),
        cell_of(cells, i, 10),
    ]
}
