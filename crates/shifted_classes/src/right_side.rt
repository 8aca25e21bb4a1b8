// The right side of a join, shifted behind the left one: which expressions can move, their numbers, and the shifted
// classes.
ghost use Rattle.std.specs.Prelude.{is_ok, IsOkUnless, false, List, [], ◌∷◌, ◌++◌, ◌≡◌, ℕ, ◌≤◌, ◌<◌, ◌+◌, ◌*◌, ◌/◌, pos, length, get_or, take, drop};
ghost use Rattle.laws.specs.Tests.{each};
ghost use Rattle.shifting.specs.Shift.{moved};
ghost use Rattle.arena.specs.Layout.{decode as nodes};
ghost use Rattle.arena.specs.declared.Refusal.TheVariants.{ArenaFull};
ghost use Rattle.arena.specs.Inner.{Holds};
ghost use Rattle.shifting.specs.Inner.{lifted};
ghost use Rattle.classes.specs.declared.Constant.TheVariants.{NoConstant as no_constant};
ghost use Rattle.classes.specs.Good.{flat};
ghost use Rattle.classes.specs.Layout.{encode, decode};
ghost use Rattle.classes.specs.Inner.{Coded};
ghost use Rattle.merging.specs.Extending.{class_from};
ghost use Rattle.merging.specs.Inner.{AllBelow};
ghost use Rattle.shifted_classes.specs.Shifting.{shifted_classes};
ghost use Rattle.shifted_classes.specs.Inner.{rights_lent, members_of, ReadyAll, ShiftedAll};

use arena::Refusal;
use arena::cells::wide;
use classes::Group;
use merging::extending::push;
use shifting::shifting::shift;

// The lift of a shift by a number of columns: 65,535 more, and 200,000 for one that no index can follow.
pub fn lift_of_size(size: usize) -> u32
    ensures { (result ≤ 200000) × ((i : ℕ) → i < 65536 → moved (pos size) i ≡ lifted result i) }
{
    if 65535 < size {
        return 200000;
    }
    (size + 65535) as u32
}

// Every member of the group is marked in a table of the nodes that can move.
pub fn members_move(table: &[bool; 1024], g: Group) -> bool
    requires { Coded g × AllBelow 1024 (flat (decode g)) }
    ensures { result ≡ each (λ k. get_or table.now (get_or (flat (decode g)) k 0) false) (length (flat (decode g))) }
{
    (0..g.used).all(|k| table[wide(g.members[k])])
}

// Every right side of the pairs is marked in a table of the nodes that can move.
pub fn rights_move(table: &[bool; 1024], pairs: &[u32]) -> bool
    requires { AllBelow 1024 (rights_lent pairs.now) }
    ensures { result ≡ each (λ k. get_or table.now (get_or (rights_lent pairs.now) k 0) false) (length (rights_lent pairs.now)) }
{
    (0..pairs.len() / 2).all(|k| table[wide(pairs[2 * k + 1])])
}

// The numbers of the members of a group shifted, in their order, in a table of 256 places. Refusal: 3.
pub fn shift_members(
    cells: &mut [u32; 11265],
    memo: &mut [u32; 1024],
    g: Group,
    lift: u32,
) -> Result<[u32; 256], Refusal>
    requires { Coded g × ReadyAll lift cells.old memo.old (flat (decode g)) }
    ensures { ShiftedAll lift cells.old cells.new memo.new (flat (decode g)) (is_ok result) (take g.used (members_of result)) × IsOkUnless result ArenaFull }
{
    let mut members = [0u32; 256];
    for k in 0..g.used {
        let Ok(e) = shift(cells, memo, g.members[k], lift) else {
            return Err(Refusal::ArenaFull);
        };
        members[k] = e;
    }
    Ok(members)
}

// Adds the missing nodes of the right sides of the pairs shifted. Refusal: 3.
pub fn shift_rights(
    cells: &mut [u32; 11265],
    memo: &mut [u32; 1024],
    pairs: &[u32],
    lift: u32,
) -> Result<(), Refusal>
    requires { ReadyAll lift cells.old memo.old (rights_lent pairs.now) }
    ensures { ((ks : List ℕ) × ShiftedAll lift cells.old cells.new memo.new (rights_lent pairs.now) (is_ok result) ks) × IsOkUnless result ArenaFull }
{
    for k in 0..pairs.len() / 2 {
        match shift(cells, memo, pairs[2 * k + 1], lift) {
            Ok(_) => {}
            Err(_) => return Err(Refusal::ArenaFull),
        }
    }
    Ok(())
}

// A group with a class at its end that has no member and no constant yet.
fn open_empty(out: Group) -> Group
    requires { Coded out × (out.count < 64) }
    ensures { result ≡ encode out.limit (decode out ++ (record { members = []; constant = no_constant } ∷ [])) }
{
    let mut next = out;
    next.count = out.count + 1;
    next
}

// A group with the class of n expressions at its end: those of a table, from a place on.
pub fn add_class_from(
    cells: &[u32; 11265],
    out: Group,
    members: [u32; 256],
    start: usize,
    n: usize,
) -> Group
    requires { (Coded out × ((out.count < 64) × (out.used + n ≤ 256))) × ((Holds cells.now × (start + n ≤ 256)) × AllBelow (length (nodes cells.now)) (take n (drop start members))) }
    ensures { result ≡ encode out.limit (decode out ++ (class_from (nodes cells.now) (take n (drop start members)) ∷ [])) }
{
    let mut next = open_empty(out);
    for k in 0..n {
        next = push(cells, next, members[start + k]);
    }
    next
}

// The classes of a group, shifted, at the end of another: by the numbers of the members shifted.
pub fn add_shifted(cells: &[u32; 11265], left: Group, right: Group, members: [u32; 256]) -> Group
    requires { ((Coded left × Coded right) × ((left.count + right.count ≤ 64) × (left.used + right.used ≤ 256))) × (Holds cells.now × AllBelow (length (nodes cells.now)) (take right.used members)) }
    ensures { result ≡ encode left.limit (decode left ++ shifted_classes (nodes cells.now) (decode right) (take right.used members)) }
{
    let mut out = left;
    let mut start = 0;
    for j in 0..right.count {
        let size = right.sizes[j];
        out = add_class_from(cells, out, members, start, size);
        start += size;
    }
    out
}
