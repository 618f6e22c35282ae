// A message that is given as hex text, described in one line.
ghost use Rattle.notation.specs.Description.{Describes};
ghost use Rattle.hex_text.specs.Text.{octets_of};

use crate::line::AnswerLine;
use hex_text::text::{HexFault, parse};
use reader::read;
use std::alloc::Global;

// What the octets are read as: the line of a message or of a refusal.
pub fn describe(heap: Global, text: &str) -> Result<String, HexFault>
    ensures { Describes result (octets_of text.now) }
{
    let octets = parse(heap, text)?;
    let line = AnswerLine(read(octets.as_slice()));
    Ok(line.to_string(heap)?)
}
