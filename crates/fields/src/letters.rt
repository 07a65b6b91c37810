// The letter of a record.
ghost use Rattle.std.specs.Prelude.{◌≡◌};
ghost use Rattle.fields.specs.Bytes.{out_of_phase};

use terms::fault::{Cause, Fault};

// The refusal of a letter that is unknown or out of its phase.
pub fn out_of_phase() -> Fault
    ensures { result ≡ out_of_phase }
{
    Cause::LetterOutOfPhase.into()
}
