// The check of a tolerance before it is known what will be judged by it.
ghost use Rattle.std.specs.Prelude.{◌≡◌, if◌then◌else◌, Ok, Err};
ghost use Rattle.criteria.specs.declared.fault.MapFault.TheVariants as fault;
ghost use Rattle.criteria.specs.Tolerances.{accepted};

use crate::fault::MapFault;
use crate::reflectance::Limits;
use crate::step::Step;
use crate::tolerance::Tolerance;
use crate::tone::Tone;
use crate::turn::Turn;

impl Tolerance {
    // Refuses a tolerance that the criterion of its own case does not take.
    pub fn check(self) -> Result<(), MapFault>
        ensures { result ≡ (if accepted self then Ok tt else Err fault.Tolerance) }
    {
        match self {
            Tolerance::Step(_) => {
                Step::try_from(self)?;
            }
            Tolerance::Tone(_) => {
                Tone::try_from(self)?;
            }
            Tolerance::Turn(_) => {
                Turn::try_from(self)?;
            }
            Tolerance::Limits(_, _) => {
                Limits::try_from(self)?;
            }
        }
        Ok(())
    }
}
