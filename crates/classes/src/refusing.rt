// What a refusal hands back.
ghost use Rattle.std.specs.Prelude.{Err, ◌≡◌};
ghost use Rattle.arena.specs.Refusals.{refusal_number};
ghost use Rattle.classes.specs.Calls.{no_group};

use crate::building::empty;
use crate::{Changed, Group};
use arena::Refusal;

// A refusal, and the group as it was.
pub fn refusal(why: Refusal, group: Group) -> Changed
    ensures { (result.answer ≡ Err why) × (result.group ≡ group) }
{
    Changed {
        answer: Err(why),
        group,
    }
}

// No group, beside a refusal of a call that makes one.
pub fn no_group(why: Refusal) -> Changed
    ensures { result ≡ no_group (refusal_number why) }
{
    refusal(why, empty(0))
}
