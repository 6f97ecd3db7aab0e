ghost use Rattle.std.specs.Prelude.{◌≡◌, true, false, MatchResult};
ghost use Rattle.sheet.specs.declared.fault.SheetCause.TheVariants.{OutOfPlace as NotInPlace};
ghost use Rattle.sheet.specs.Letters.{byte_of};
ghost use Rattle.sheet.specs.Reading.{takes};

use crate::fault::SheetCause;
use crate::letter::Letter;

// What may stand next in a sheet.
#[derive(Clone, Copy, Debug, PartialEq, Eq)]
pub enum Stage {
    // `N`
    Name,
    // `G`
    Geometry,
    // `D`, or the first `R`, or `E`
    Blocks,
    // `R` or `E`
    Requests,
    // no byte at all
    Nothing,
}

impl Stage {
    // Whether a command with this letter is in place. By letter, as commands are taken: pairs of stage and letter would be told apart
    // once more for every command of a long sheet.
    fn takes(self, letter: Letter) -> bool
        ensures { result ≡ takes self (byte_of letter) }
    {
        match letter {
            Letter::Name => self == Stage::Name,
            Letter::Geometry => self == Stage::Geometry,
            Letter::Disk => self == Stage::Blocks,
            Letter::Request | Letter::End => matches!(self, Stage::Blocks | Stage::Requests),
        }
    }

    // The letter that a byte is, if a command that begins with it is in place.
    #[tactic(auto, using(crate::proofs::Letters::takes_none))]
    pub(crate) fn letter(self, byte: u8) -> Result<Letter, SheetCause>
        ensures { MatchResult result (λ letter. (byte_of letter ≡ byte) × (takes self byte ≡ true)) (λ cause. (takes self byte ≡ false) × (cause ≡ NotInPlace)) }
    {
        let letter = Letter::try_from(byte)?;
        if !self.takes(letter) {
            return Err(SheetCause::OutOfPlace);
        }
        Ok(letter)
    }
}
