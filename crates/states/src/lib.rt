// States as lent arrays of numbers: how an arena, a group, a list of orderings and a dependency map lie in cells, and how
// the last two are read into their structs and written back. An arena lies in its cells already; the crate group_states
// reads and writes a group.
//
// Reading asks nothing: any cells are read as some struct, which the call that is lent it checks. The constants say the
// sizes and layouts; the C header has the same ones.
#![tactic(auto)]

pub mod maps;
pub mod numbers;
pub mod orders;

// Arena: cell 0 is the node count, then 11 cells for each of 1,024 nodes: kind, payload, number of children, 8 children.
pub const ARENA_CELLS: usize = 11265;

pub const ARENA_COUNT: usize = 0;

pub const ARENA_NODES: usize = 1;

pub const NODE_CELLS: usize = 11;

pub const NODE_KIND: usize = 0;

pub const NODE_PAYLOAD: usize = 1;

pub const NODE_CHILD_COUNT: usize = 2;

pub const NODE_CHILDREN: usize = 3;

// Group: limit, classes, members; for each of 64 classes its size, its flavour, its value; 256 places for members.
pub const GROUP_CELLS: usize = 451;

pub const GROUP_LIMIT: usize = 0;

pub const GROUP_COUNT: usize = 1;

pub const GROUP_USED: usize = 2;

pub const GROUP_SIZES: usize = 3;

pub const GROUP_FLAVOURS: usize = 67;

pub const GROUP_VALUES: usize = 131;

pub const GROUP_MEMBERS: usize = 195;

// One ordering: its size, then 16 places for keys. A list: its count, then 32 orderings.
pub const ORDERING_CELLS: usize = 17;

pub const ORDERINGS_CELLS: usize = 545;

pub const ORDERINGS_COUNT: usize = 0;

pub const ORDERINGS_LIST: usize = 1;

// Dependency map: its count, then for each of 64 keys the key, its target + 1 (0 for none), how many dependencies, 16
// places for them.
pub const MAP_CELLS: usize = 1217;

pub const MAP_COUNT: usize = 0;

pub const MAP_LIST: usize = 1;

pub const MAP_NODE_CELLS: usize = 19;

pub const MAP_NODE_KEY: usize = 0;

pub const MAP_NODE_TARGET: usize = 1;

pub const MAP_NODE_SIZE: usize = 2;

pub const MAP_NODE_DEPENDENCIES: usize = 3;

// The kinds of nodes, the flavours of constants, the options of keys, and what stands for none.
pub const COLUMN: u32 = 1;

pub const LITERAL: u32 = 2;

pub const OPERATION: u32 = 3;

pub const NO_CONSTANT: u32 = 0;

pub const HETEROGENEOUS: u32 = 1;

pub const UNKNOWN: u32 = 2;

pub const KNOWN: u32 = 3;

pub const DESCENDING: u32 = 1;

pub const NULLS_FIRST: u32 = 2;

pub const NONE: u32 = 4294967295;
