// Hex text, read one character after another.
ghost use Rattle.std.specs.Prelude.{◌≡◌};
ghost use Rattle.hex_text.specs.Digits.{blank, gap};
ghost use Rattle.hex_text.specs.Stages.{next_stage, last_stage};

use crate::digit::Digit;
use crate::text::HexFault;

// What was read last.
#[derive(Clone, Copy)]
pub enum Stage {
    // nothing but blanks
    Start,
    // the dash that stands for no octets
    Dash,
    // the first digit of an octet, and its column
    Half { high: Digit, column: usize },
    // the second digit of this octet
    Octet(u8),
    // blanks or colons behind an octet
    Gap,
}

impl Stage {
    // The stage behind one more character. Columns count from 1.
    pub(crate) fn next(self, character: u8, column: usize) -> Result<Stage, HexFault>
        ensures { result ≡ next_stage self character column }
    {
        match self {
            Stage::Start if is_blank(character) => Ok(Stage::Start),
            Stage::Start if character == b'-' => Ok(Stage::Dash),
            Stage::Dash if is_blank(character) => Ok(Stage::Dash),
            Stage::Dash => Err(HexFault::BehindDash { column }),
            Stage::Half {
                high,
                column: first,
            } => {
                // No guard, since one on a pattern that holds a Digit gets no proof.
                if is_gap(character) {
                    return Err(HexFault::LoneDigit { column: first });
                }
                let low = Digit::read(character, column)?;
                Ok(Stage::Octet(high.octet(low)))
            }
            Stage::Octet(_) | Stage::Gap if is_gap(character) => Ok(Stage::Gap),
            Stage::Start | Stage::Octet(_) | Stage::Gap => {
                let high = Digit::read(character, column)?;
                Ok(Stage::Half { high, column })
            }
        }
    }

    // Whether a text may end here.
    pub(crate) fn end(self) -> Result<(), HexFault>
        ensures { result ≡ last_stage self }
    {
        match self {
            Stage::Start => Err(HexFault::Nothing),
            Stage::Half { column, .. } => Err(HexFault::LoneDigit { column }),
            Stage::Dash | Stage::Octet(_) | Stage::Gap => Ok(()),
        }
    }
}

fn is_blank(character: u8) -> bool
    ensures { result ≡ blank character }
{
    matches!(character, b' ' | b'\t' | b'\r')
}

fn is_gap(character: u8) -> bool
    ensures { result ≡ gap character }
{
    is_blank(character) || character == b':'
}
