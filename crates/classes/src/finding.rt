// The class of an expression.
ghost use Rattle.std.specs.Prelude.{◌≡◌, ◌≤◌, ◌<◌, ◌+◌, get_or};
ghost use Rattle.laws.specs.Lists.{table};
ghost use Rattle.classes.specs.Group.{class_of, among as is_among};
ghost use Rattle.classes.specs.Layout.{decode};
ghost use Rattle.classes.specs.Inner.{Coded};

use crate::Group;

// The place of the class that holds an expression.
pub fn find_class(g: Group, e: u32) -> Option<usize>
    requires { Coded g }
    ensures { result ≡ class_of (decode g) e }
{
    let mut start = 0;
    for i in 0..g.count {
        let size = g.sizes[i];
        if among(&g.members, start, size, e) {
            return Some(i);
        }
        start += size;
    }
    None
}

// An expression is among n members from a place on.
fn among(members: &[u32; 256], start: usize, n: usize, e: u32) -> bool
    requires { start + n ≤ 256 }
    ensures { result ≡ is_among e (table (λ k. get_or members.now (start + k) 0) n) }
{
    (0..n).any(|k| members[start + k] == e)
}
