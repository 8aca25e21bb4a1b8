// An expression as a group of one class, on an arena that is checked already.
ghost use Rattle.std.specs.Prelude.{[], ◌∷◌, ◌≡◌};
ghost use Rattle.arena.specs.Node.{node_at};
ghost use Rattle.arena.specs.Layout.{decode as nodes};
ghost use Rattle.arena.specs.Inner.{Known};
ghost use Rattle.classes.specs.Class.{carried as carried_by, single};
ghost use Rattle.classes.specs.Layout.{encode};

use crate::building::empty;
use crate::{Constant, Group};
use arena::Read;
use arena::cells::wide;
use arena::reading::read_in;

// The constant that an expression carries: a literal its own value.
pub fn carried(cells: &[u32; 11265], e: u32) -> Constant
    requires { Known cells.now e }
    ensures { result ≡ carried_by (node_at (nodes cells.now) e) }
{
    match read_in(cells, wide(e)) {
        Read::Literal(value) => Constant::Known(value),
        Read::Column(_, _) | Read::Operation(_, _) => Constant::NoConstant,
    }
}

// A group of one class of one member, with a constant.
pub fn one_class(e: u32, constant: Constant) -> Group
    ensures { result ≡ encode 256 (record { members = e ∷ []; constant = constant } ∷ []) }
{
    let mut g = empty(256);
    g.members[0] = e;
    g.sizes[0] = 1;
    g.flavours[0] = constant.flavour();
    g.values[0] = constant.value();
    g.count = 1;
    g.used = 1;
    g
}

// An expression as a group of one class.
pub fn single_group(cells: &[u32; 11265], e: u32) -> Group
    requires { Known cells.now e }
    ensures { result ≡ encode 256 (single (nodes cells.now) e ∷ []) }
{
    one_class(e, carried(cells, e))
}
