// A criterion that is not symmetric: a value is near when it is at least the centre.
ghost use Rattle.std.specs.Prelude.{true, nat_le};
ghost use Rattle.std.proofs.Common.{rules};

use criteria::Criterion;

#[derive(Clone, Copy, PartialEq, Eq, Debug)]
pub struct AtLeast;

impl Criterion for AtLeast {
    type Value = u8;

    ghost judgement = { λ c. record { admits = λ v. true; near = λ centre v. nat_le centre v } };

    ghost itself = { Prim.search rules };

    fn admitted(&self, _value: u8) -> bool {
        true
    }

    fn near(&self, centre: u8, value: u8) -> bool {
        centre <= value
    }
}
