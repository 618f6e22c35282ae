// Octets read from hex text.
ghost use Rattle.std.specs.Prelude.{◌≡◌, Some};
ghost use Rattle.hex_text.specs.Faults.{fault_text};
ghost use Rattle.hex_text.specs.Text.{octets_of, Reads, ShownReadsBack};
ghost use Rattle.hex_text.specs.declared.text.HexFault.TheVariants.{Memory};

use crate::stage::Stage;
use std::alloc::{AllocError, AllocFailed, Global};
use std::error::Error;
use std::fmt;

// Why a text is no octets. Columns count from 1.
#[derive(Clone, Copy, PartialEq, Eq, Debug)]
pub enum HexFault {
    // nothing but blanks
    Nothing,
    // a character that is no hex digit
    NoDigit { column: usize },
    // an octet's first digit, with no second one right behind it
    LoneDigit { column: usize },
    // more than blanks behind a dash
    BehindDash { column: usize },
    // no memory for the octets
    Memory,
}

// By hand, like the conversions below: contracts name what they give, and derived ones have no contract.
impl fmt::Display for HexFault {
    ghost output = { λ fault. Some (fault_text fault) };

    fn fmt<W: fmt::Write>(&self, f: &mut fmt::Formatter<W>) -> fmt::Result {
        match *self {
            HexFault::Nothing => f.write_str("nothing there: no octets are written -"),
            HexFault::NoDigit { column } => write!(f, "column {column}: not a hex digit"),
            HexFault::LoneDigit { column } => {
                write!(f, "column {column}: one hex digit, where an octet has two")
            }
            HexFault::BehindDash { column } => {
                write!(f, "column {column}: more text behind the dash")
            }
            HexFault::Memory => f.write_str("out of memory"),
        }
    }
}

impl Error for HexFault {}

impl From<AllocError> for HexFault {
    ghost from_gives = { λ _ r. r ≡ Memory };

    fn from(_error: AllocError) -> HexFault {
        HexFault::Memory
    }
}

impl<T: Drop> From<AllocFailed<T>> for HexFault {
    ghost from_gives = { λ _ r. r ≡ Memory };

    fn from(_refused: AllocFailed<T>) -> HexFault {
        HexFault::Memory
    }
}

// The octets that hex text stands for: two digits to an octet, of either case. Blanks and colons may stand behind an
// octet, and blanks before the first. A dash is no octets.
#[tactic(auto, using(crate::proofs::Shown::shown_reads_back))]
pub fn parse(heap: Global, text: &str) -> Result<Vec<u8>, HexFault>
    ensures reads { Reads result (octets_of text.now) }
    ensures shown { ShownReadsBack }
{
    let mut octets = Vec::new(heap);
    let mut stage = Stage::Start;
    for (place, &character) in text.as_bytes().iter().enumerate() {
        stage = stage.next(character, place + 1)?;
        if let Stage::Octet(octet) = stage {
            octets.push(octet)?;
        }
    }
    stage.end()?;
    Ok(octets)
}
