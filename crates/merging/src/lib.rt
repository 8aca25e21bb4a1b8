// Groups that are made of lists of classes (document 01, "Classes"): `new`, which merges classes that overlap.
//
// The function of this file is the public call and asks nothing of its caller: it checks what it is lent for itself, and
// a refusal gives its number of document 01's table and makes no group. Those of the modules serve the crates above,
// which hold an arena and groups that are checked already.
#![tactic(auto)]

pub mod bridging;
pub mod extending;

ghost use Rattle.std.specs.Prelude.{◌≡◌};
ghost use Rattle.merging.specs.Calls.{new_answer};

use bridging::{from_classes, made};
use classes::refusing::no_group;
use classes::{Changed, Group};
use lent_classes::lent::{lent_classes, new_number};

// One step of bridging: the group after it, and the place where the next one looks.
#[derive(Clone, Copy)]
pub struct Bridged {
    pub group: Group,
    pub next: usize,
}

// Makes a group of a list of classes that may overlap, repeat, be empty or say nothing. For each class the list has
// its flavour (0 none, 1 heterogeneous, 2 uniform unknown, 3 uniform with a value), its value, its member count and its
// members. The limit is 256. Refusals: 12, 11, 1, 4, with a group of limit 0, which is none.
pub fn new(cells: &[u32; 11265], list: &[u32]) -> Changed
    ensures { result ≡ new_answer cells.now list.now }
{
    if let Err(why) = new_number(cells, list) {
        return no_group(why);
    }
    made(from_classes(lent_classes(list)))
}
