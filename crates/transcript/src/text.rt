// The lines of a session, written into lent bytes.
ghost use Rattle.std.specs.Prelude.{◌∷◌, [], ◌≡◌};
ghost use Rattle.lines.specs.Text.{line};
ghost use Rattle.lines.specs.Writing.{Put, RoomFor};
ghost use Rattle.transcript.specs.Session.{r_word, end_word, bit as bit_of};
ghost use Rattle.transcript.specs.Inner.{said_text};

use arena::Refusal;
use arena::cells::wide;
use lines::{put_byte, put_three, put_two};
use session_steps::holding::{Holding, Said};

// Writes the line of a refusal: the number of its record, and its own.
pub fn put_refusal(out: &mut [u8], at: usize, k: usize, number: usize) -> usize
    requires { RoomFor out.old at (line r_word (k ∷ number ∷ [])) }
    ensures { Put out.old at (line r_word (k ∷ number ∷ [])) out.new result }
{
    put_two(out, at, 114, k, number)
}

// Writes the last line: classes, members, orderings.
pub fn put_end(out: &mut [u8], at: usize, h: Holding) -> usize
    requires { RoomFor out.old at (line end_word (h.group.count ∷ h.group.used ∷ h.list.count ∷ [])) }
    ensures { Put out.old at (line end_word (h.group.count ∷ h.group.used ∷ h.list.count ∷ [])) out.new result }
{
    let one = put_byte(out, at, 101);
    let two = put_byte(out, one, 110);
    let three = put_byte(out, two, 100);
    put_three(out, three, h.group.count, h.group.used, h.list.count)
}

// A yes is 1, a no is 0.
#[tactic(auto, unfolding(crate::specs::Session::bit))]
fn bit(yes: bool) -> usize
    ensures { result ≡ bit_of yes }
{
    usize::from(yes)
}

// Writes what a record is answered with, by the record's number.
pub fn put_said(out: &mut [u8], at: usize, k: usize, said: Result<Said, Refusal>) -> usize
    requires { RoomFor out.old at (said_text k said) }
    ensures { Put out.old at (said_text k said) out.new result }
{
    match said {
        Ok(what) => match what {
            Said::Quiet => at,
            Said::NormalForm(e, r) => put_two(out, at, 110, wide(e), wide(r)),
            Said::Equality(a, b, yes) => {
                let next = put_byte(out, at, 113);
                put_three(out, next, wide(a), wide(b), bit(yes))
            }
        },
        Err(why) => put_refusal(out, at, k, wide(u32::from(why))),
    }
}
