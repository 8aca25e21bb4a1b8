// What a session holds beside its arena, and what a record is answered with.
ghost use Rattle.std.specs.Prelude.{[], ◌≡◌};
ghost use Rattle.classes.specs.Layout.{encode};
ghost use Rattle.orderings.specs.Layout.{encode as encode_list};

use arena::Refusal;
use classes::Group;
use classes::building::empty;
use orderings::Orderings;
use orderings::making::no_orderings;

// The group and the orderings.
#[derive(Clone, Copy)]
pub struct Holding {
    pub group: Group,
    pub list: Orderings,
}

// What a record is answered with: nothing, a normal form, a yes or a no.
#[derive(Clone, Copy, Debug, PartialEq, Eq)]
pub enum Said {
    Quiet,
    NormalForm(u32, u32),
    Equality(u32, u32, bool),
}

// The answer and what is held afterwards: on a refusal what was held.
#[derive(Clone, Copy)]
pub struct Stepped {
    pub said: Result<Said, Refusal>,
    pub holding: Holding,
}

// An empty group of limit 256 and no orderings.
pub fn opened() -> Holding
    ensures { result ≡ record { group = encode 256 []; list = encode_list [] } }
{
    Holding {
        group: empty(256),
        list: no_orderings(),
    }
}
