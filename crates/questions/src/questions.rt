// The two questions: walks by recursion on the node number, each with a table of what was answered yes. The
// first no ends the walk, so a table holds nothing but yes.
ghost use Rattle.std.specs.Prelude.{true, false, ◌≡◌, ℕ, ◌≤◌, ◌<◌, ◌+◌, ◌*◌};
ghost use Rattle.arena.specs.Node.{node_at, child_numbers};
ghost use Rattle.arena.specs.Layout.{decode as nodes};
ghost use Rattle.arena.specs.Inner.{Known};
ghost use Rattle.classes.specs.Group.{class_of};
ghost use Rattle.classes.specs.Layout.{decode};
ghost use Rattle.classes.specs.Inner.{Coded};
ghost use Rattle.questions.specs.Questions.{exprs_equal, class_constant, expr_constant};
ghost use Rattle.questions.specs.Inner.{Placed, Asked, Answered, AskedAll, AnsweredAll, pair_up, place_number, same_place, told_pair, Marked, AskedConstant, AnsweredConstant, AskedConstants, AnsweredConstants};

use arena::cells::{cell_of, narrow, node_count, wide};
use arena::reading::{child_count, child_in};
use classes::building::constant_of;
use classes::finding::find_class;
use classes::{Constant, Group};

// The place of the class of an expression as a number: 0 where there is none.
fn place_number(g: Group, e: u32) -> u32
    requires { Coded g }
    ensures { result ≡ place_number (class_of (decode g) e) }
{
    match find_class(g, e) {
        Some(i) => narrow(i + 1),
        None => 0,
    }
}

// The places of the classes of the first n nodes.
pub fn class_places(g: Group, n: usize) -> [u32; 1024]
    requires { Coded g × (n ≤ 1024) }
    ensures { Placed (decode g) n result }
{
    let mut places = [0u32; 1024];
    for e in 0..n {
        places[e] = place_number(g, narrow(e));
    }
    places
}

// The table has the pair a, b.
fn has_pair(seen: &[u64; 16384], a: usize, b: usize) -> bool
    requires { (a < 1024) × (b < 1024) }
    ensures { result ≡ told_pair seen.now a b }
{
    (seen[a * 16 + b / 64] >> (b % 64)) % 2 == 1
}

// The table with the pair a, b.
fn add_pair(seen: &mut [u64; 16384], a: usize, b: usize)
    requires { (a < 1024) × (b < 1024) }
    ensures { (x y : ℕ) → x < 1024 → y < 1024 → told_pair seen.new x y ≡ true → ((x ≡ a) × (y ≡ b) → ⊥) → told_pair seen.old x y ≡ true }
{
    let at = a * 16 + b / 64;
    seen[at] = seen[at] | (1u64 << (b % 64));
}

// Two expressions are in one class, by the places of their classes.
#[tactic(auto, unfolding(crate::specs::Inner::same_place))]
pub fn same_place(places: &[u32; 1024], a: usize, b: usize) -> bool
    requires { (a < 1024) × (b < 1024) }
    ensures { result ≡ same_place places.now a b }
{
    let i = places[a];
    i != 0 && i == places[b]
}

// Both have children, equally many.
fn children_pair_up(cells: &[u32; 11265], x: usize, y: usize) -> bool
    requires { Known cells.now x × Known cells.now y }
    ensures { result ≡ pair_up (child_numbers (node_at (nodes cells.now) x)) (child_numbers (node_at (nodes cells.now) y)) }
{
    cell_of(cells, x, 2) != 0 && cell_of(cells, x, 2) == cell_of(cells, y, 2)
}

// The children of a and b, n each, are pairwise equal.
#[cycle(children_equal_nodes_equal)]
fn children_equal(
    cells: &[u32; 11265],
    places: &[u32; 1024],
    seen: &mut [u64; 16384],
    a: u32,
    b: u32,
    n: usize,
) -> bool
    requires { AskedAll cells.now places.now seen.old a b n }
    ensures { AnsweredAll cells.now places.now seen.new a b n result }
{
    for k in 0..n {
        let x = child_in(cells, wide(a), k);
        let y = child_in(cells, wide(b), k);
        if !nodes_equal(cells, places, seen, x, y) {
            return false;
        }
    }
    true
}

// Two expressions are equal: the same number, one class, or pairwise equal children, at least one.
#[cycle(children_equal_nodes_equal)]
fn nodes_equal(
    cells: &[u32; 11265],
    places: &[u32; 1024],
    seen: &mut [u64; 16384],
    a: u32,
    b: u32,
) -> bool
    requires { Asked cells.now places.now seen.old a b }
    ensures { Answered cells.now places.now seen.new a b result }
{
    let x = wide(a);
    let y = wide(b);
    if a == b || same_place(places, x, y) {
        return true;
    }
    if !children_pair_up(cells, x, y) {
        return false;
    }
    if has_pair(seen, x, y) {
        return true;
    }
    let n = child_count(cells, x);
    if !children_equal(cells, places, seen, a, b, n) {
        return false;
    }
    add_pair(seen, x, y);
    true
}

// The equality question, on an arena and a group that are checked already.
pub fn equal_in(cells: &[u32; 11265], g: Group, a: u32, b: u32) -> bool
    requires { (Known cells.now a × Known cells.now b) × Coded g }
    ensures { result ≡ exprs_equal (nodes cells.now) (decode g) a b }
{
    let n = node_count(cells);
    let places = class_places(g, n);
    let mut seen = [0u64; 16384];
    nodes_equal(cells, &places, &mut seen, a, b)
}

// The constant of the class of an expression, none where it has no class.
fn class_mark(g: Group, e: u32) -> Constant
    requires { Coded g }
    ensures { result ≡ class_constant (decode g) e }
{
    match find_class(g, e) {
        Some(i) => constant_of(g, i),
        None => Constant::NoConstant,
    }
}

// The flavours of the constants of the classes of the first n nodes.
pub fn class_marks(g: Group, n: usize) -> [u32; 1024]
    requires { Coded g × (n ≤ 1024) }
    ensures { Marked (decode g) n result }
{
    let mut marks = [0u32; 1024];
    for e in 0..n {
        marks[e] = class_mark(g, narrow(e)).flavour();
    }
    marks
}

// The n children of e are all constant.
#[cycle(children_constant_node_constant)]
fn children_constant(
    cells: &[u32; 11265],
    marks: &[u32; 1024],
    seen: &mut [u8; 1024],
    e: u32,
    n: usize,
) -> bool
    requires { AskedConstants cells.now marks.now seen.old e n }
    ensures { AnsweredConstants cells.now marks.now seen.new e n result }
{
    for k in 0..n {
        let x = child_in(cells, wide(e), k);
        if !node_constant(cells, marks, seen, x) {
            return false;
        }
    }
    true
}

// An expression is constant: a literal, in a class with a constant, or with children, at least one, that all are.
#[cycle(children_constant_node_constant)]
fn node_constant(cells: &[u32; 11265], marks: &[u32; 1024], seen: &mut [u8; 1024], e: u32) -> bool
    requires { AskedConstant cells.now marks.now seen.old e }
    ensures { AnsweredConstant cells.now marks.now seen.new e result }
{
    let i = wide(e);
    if cell_of(cells, i, 0) == 2 || marks[i] != 0 || seen[i] == 1 {
        return true;
    }
    let n = child_count(cells, i);
    if n == 0 {
        return false;
    }
    if !children_constant(cells, marks, seen, e, n) {
        return false;
    }
    seen[i] = 1;
    true
}

// The constant question, on an arena and a group that are checked already: a literal's own value, else its
// class's constant, else heterogeneous where its children are all constant.
pub fn constant_in(cells: &[u32; 11265], g: Group, e: u32) -> Constant
    requires { Known cells.now e × Coded g }
    ensures { result ≡ expr_constant (nodes cells.now) (decode g) e }
{
    let i = wide(e);
    if cell_of(cells, i, 0) == 2 {
        let value = cell_of(cells, i, 1);
        return Constant::Known(value);
    }
    let own = class_mark(g, e);
    if own.flavour() != 0 {
        return own;
    }
    let n = node_count(cells);
    let marks = class_marks(g, n);
    let mut seen = [0u8; 1024];
    if node_constant(cells, &marks, &mut seen, e) {
        Constant::Heterogeneous
    } else {
        Constant::NoConstant
    }
}
