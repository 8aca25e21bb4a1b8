// The numbers of refusals.
ghost use Rattle.std.specs.Prelude.{◌≡◌};
ghost use Rattle.arena.specs.Refusals.{refusal_number, number_of as number_of_answer};

use crate::Refusal;

// The number of a refusal.
impl From<Refusal> for u32 {
    ghost from_gives = { λ refusal number. number ≡ refusal_number refusal };

    fn from(refusal: Refusal) -> u32 {
        match refusal {
            Refusal::UnknownExpression => 1,
            Refusal::TooManyChildren => 2,
            Refusal::ArenaFull => 3,
            Refusal::GroupFull => 4,
            Refusal::TooLarge => 5,
            Refusal::UnknownKey => 6,
            Refusal::NoTarget => 7,
            Refusal::OutputShort => 8,
            Refusal::Malformed => 9,
            Refusal::IndexOutOfRange => 10,
            Refusal::BadState => 11,
            Refusal::BadNumber => 12,
        }
    }
}

// The number of an answer: 0 where it is done.
pub fn number_of(done: Result<(), Refusal>) -> u32
    ensures { result ≡ number_of_answer done }
{
    match done {
        Ok(()) => 0,
        Err(refusal) => u32::from(refusal),
    }
}
