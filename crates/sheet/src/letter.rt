ghost use Rattle.std.specs.Prelude.{◌≡◌, MatchResult};
ghost use Rattle.sheet.specs.declared.fault.SheetCause.TheVariants.{OutOfPlace as NotInPlace};
ghost use Rattle.sheet.specs.Letters.{byte_of, BeginsNone};

use crate::fault::SheetCause;

// The letters that the commands of a sheet begin with.
#[derive(Clone, Copy, Debug, PartialEq, Eq)]
pub enum Letter {
    Name,
    Geometry,
    Disk,
    Request,
    End,
}

// A byte that no command begins with is out of place wherever it stands.
impl TryFrom<u8> for Letter {
    type Error = SheetCause;

    ghost try_from_gives = { λ byte r. MatchResult r (λ letter. byte_of letter ≡ byte) (λ cause. BeginsNone byte × (cause ≡ NotInPlace)) };

    fn try_from(byte: u8) -> Result<Letter, SheetCause> {
        // Matched as a char: the cases are to be written as the characters that a sheet is told in, and not as numbers.
        match char::from(byte) {
            'N' => Ok(Letter::Name),
            'G' => Ok(Letter::Geometry),
            'D' => Ok(Letter::Disk),
            'R' => Ok(Letter::Request),
            'E' => Ok(Letter::End),
            _ => Err(SheetCause::OutOfPlace),
        }
    }
}
