// One hex digit.
ghost use Rattle.std.specs.Prelude.{◌≡◌, ℕ, ◌+◌, ◌*◌, ◌<◌};
ghost use Rattle.hex_text.specs.Digits.{digit_at};

use crate::text::HexFault;
use std::marker::Model;

// The value of a hex digit, which contracts see as a number.
#[derive(Clone, Copy)]
pub struct Digit {
    value: u8,
}

impl Model for Digit {
    ghost Value = { ℕ };

    ghost view = { λ digit. digit.value };

    ghost invariant = { λ digit. digit.value < 16 };

    ghost inverse = { λ value. record { value = value } };
}

impl Digit {
    // The digit that a character is, of either case. Columns count from 1.
    pub(crate) fn read(character: u8, column: usize) -> Result<Digit, HexFault>
        ensures { result ≡ digit_at column character }
    {
        let value = char::from(character)
            .to_digit(16)
            .ok_or(HexFault::NoDigit { column })?;
        Ok(Digit { value: value as u8 })
    }

    // The octet that this digit begins, and the other ends.
    pub(crate) fn octet(self, low: Digit) -> u8
        ensures { result ≡ 16 * self + low }
    {
        16 * self.value + low.value
    }
}
