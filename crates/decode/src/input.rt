// What one line of input comes to.
ghost use Rattle.std.specs.Prelude.{Some};
ghost use Rattle.decode.specs.Words.{line_fault_text};

use crate::failure::Failure;
use hex_text::text::HexFault;
use notation::description::describe;
use std::alloc::{AllocError, Global};
use std::{fmt, io};
use thiserror::Error;

// Why a line is no octets.
#[derive(Debug, Drop, Error)]
pub enum LineFault {
    Hex(#[from] HexFault),
    Encoding,
}

// What is printed behind the line's number: by hand, since a derived Display has no contract.
impl fmt::Display for LineFault {
    ghost output = { λ fault. Some (line_fault_text fault) };

    fn fmt<W: fmt::Write>(&self, f: &mut fmt::Formatter<W>) -> fmt::Result {
        match self {
            LineFault::Hex(fault) => fault.fmt(f),
            LineFault::Encoding => f.write_str("not UTF-8 text"),
        }
    }
}

// The answer to a line, or its fault. A failure is no fault of the line.
pub(crate) fn read(
    heap: Global,
    line: io::Result<String>,
) -> Result<Result<Option<String>, LineFault>, Failure> {
    match line {
        Ok(line) => match answer(heap, line.as_str()) {
            Err(HexFault::Memory) => Err(AllocError.into()),
            said => Ok(said.map_err(LineFault::from)),
        },
        Err(error) if error.kind() == io::ErrorKind::InvalidData => Ok(Err(LineFault::Encoding)),
        Err(error) => Err(error.into()),
    }
}

// The line of the message in front of a comment, or of its refusal. None where nothing stands there.
pub(crate) fn answer(heap: Global, line: &str) -> Result<Option<String>, HexFault> {
    match describe(heap, before_comment(line)) {
        Ok(line) => Ok(Some(line)),
        Err(HexFault::Nothing) => Ok(None),
        Err(fault) => Err(fault),
    }
}

fn before_comment(line: &str) -> &str {
    line.split_once('#').map_or(line, |(text, _)| text)
}
