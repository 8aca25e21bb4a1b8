// The table of what replaces each node: the first member of its class.
ghost use Rattle.std.specs.Prelude.{◌≡◌, ◌≤◌};
ghost use Rattle.classes.specs.Layout.{decode};
ghost use Rattle.classes.specs.Inner.{Coded};
ghost use Rattle.normal.specs.Normal.{first_of};
ghost use Rattle.normal.specs.Inner.{Firsts};

use arena::cells::narrow;
use classes::Group;
use classes::building::first_member;
use classes::finding::find_class;

// The first member of an expression's class, itself where it is in none.
fn first_of(g: Group, e: u32) -> u32
    requires { Coded g }
    ensures { result ≡ first_of (decode g) e }
{
    match find_class(g, e) {
        Some(i) => first_member(g, i),
        None => e,
    }
}

// What replaces each of the first n nodes.
pub fn class_firsts(g: Group, n: usize) -> [u32; 1024]
    requires { Coded g × (n ≤ 1024) }
    ensures { Firsts (decode g) n result }
{
    let mut firsts = [0u32; 1024];
    for e in 0..n {
        firsts[e] = first_of(g, narrow(e));
    }
    firsts
}
