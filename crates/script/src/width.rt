// What fits where: bytes, months and counts, figures, and requirements.
ghost use Rattle.std.specs.Prelude.{◌≡◌, ℤ, Result};
ghost use Rattle.std.specs.declared.num.TryFromIntError.{TryFromIntError};
ghost use Rattle.script.specs.Fits.{fits_up_to, fits_signed64};
ghost use Rattle.script.specs.Widths.{FitsAs, up_to, signed64};
ghost use Rattle.script.specs.declared.fault.Wrong.{Wrong};

use crate::fault::Wrong;
use crate::number::Number;
use std::num::TryFromIntError;

// A type that a place of a command has.
pub(crate) trait Width: TryFrom<i128, Error = TryFromIntError> {
    // The number as it fits there, or that it does not.
    ghost fitted: { ℤ → Result Self Wrong };

    // That is what the conversion gives.
    ghost fits: { (z : ℤ) (r : Result Self TryFromIntError) → Self.try_from_gives z r → FitsAs (fitted z) r };
}

impl Width for u8 {
    ghost fitted = { up_to 255 };

    ghost fits = { fits_up_to 255 };
}

impl Width for u16 {
    ghost fitted = { up_to 65535 };

    ghost fits = { fits_up_to 65535 };
}

impl Width for u32 {
    ghost fitted = { up_to 4294967295 };

    ghost fits = { fits_up_to 4294967295 };
}

impl Width for i64 {
    ghost fitted = { signed64 };

    ghost fits = { fits_signed64 };
}

impl Number {
    // The number as its place holds it.
    pub(crate) fn fit<T: Width>(self) -> Result<T, Wrong>
        ensures { result ≡ T.fitted self.0 }
    {
        T::try_from(self.0).map_err(|_| Wrong::DoesNotFit)
    }
}
