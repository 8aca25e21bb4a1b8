// Constants: their numbers in the tables of a group, and which one a class takes.
ghost use Rattle.std.specs.Prelude.{◌≡◌};
ghost use Rattle.classes.specs.Class.{taken};
ghost use Rattle.classes.specs.Layout.{flavour_of, value_of, constant_from};

use crate::Constant;

impl Constant {
    // The flavour of a constant.
    #[tactic(auto, unfolding(crate::specs::Layout::flavour_of))]
    pub fn flavour(self) -> u32
        ensures { result ≡ flavour_of self }
    {
        match self {
            Constant::NoConstant => 0,
            Constant::Heterogeneous => 1,
            Constant::Unknown => 2,
            Constant::Known(_) => 3,
        }
    }

    // The value of a constant, 0 where none is known.
    #[tactic(auto, unfolding(crate::specs::Layout::value_of))]
    pub fn value(self) -> u32
        ensures { result ≡ value_of self }
    {
        match self {
            Constant::Known(value) => value,
            Constant::NoConstant | Constant::Heterogeneous | Constant::Unknown => 0,
        }
    }

    // The constant that a flavour and a value say: a value stands only where one is known, and any other flavour is none.
    #[tactic(auto, unfolding(crate::specs::Layout::constant_from))]
    pub fn from_numbers(flavour: u32, value: u32) -> Constant
        ensures { result ≡ constant_from flavour value }
    {
        match flavour {
            1 => Constant::Heterogeneous,
            2 => Constant::Unknown,
            3 => Constant::Known(value),
            _ => Constant::NoConstant,
        }
    }

    // The constant that a class has once another is merged in: the other's over none or a heterogeneous one.
    #[tactic(auto, unfolding(crate::specs::Class::taken, crate::specs::Class::is_uniform))]
    pub fn taken_over(self, new: Constant) -> Constant
        ensures { result ≡ taken self new }
    {
        match (self, new) {
            (Constant::Unknown | Constant::Known(_), _) | (_, Constant::NoConstant) => self,
            (Constant::NoConstant | Constant::Heterogeneous, _) => new,
        }
    }
}
