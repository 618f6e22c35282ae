// Octets written as hex text.
ghost use Rattle.std.specs.Prelude.{Some};
ghost use Rattle.hex_text.specs.Capitals.{capitals};

use std::fmt;

// Octets that are shown as two capital hex digits each, with nothing between.
#[derive(Clone, Copy, PartialEq, Eq, Debug)]
pub struct Hex<'a>(pub &'a [u8]);

impl fmt::Display for Hex<'_> {
    ghost output = { λ hex. Some (capitals hex.0.now) };

    fn fmt<W: fmt::Write>(&self, f: &mut fmt::Formatter<W>) -> fmt::Result {
        for &octet in self.0 {
            write!(f, "{octet:02X}")?;
        }
        Ok(())
    }
}
