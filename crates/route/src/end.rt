// The two ends of a route.
ghost use Rattle.std.specs.Prelude.{◌≡◌, ◌<◌};
ghost use Rattle.route.specs.Ends.{end_number, NamesEnd};

use message::fault::{Fault, Refusal};

#[derive(Clone, Copy, PartialEq, Eq, Debug)]
pub enum End {
    Zero,
    One,
}

impl End {
    // Its place among the two: a method, for that an end is an index is the business of arrays of two alone.
    pub fn index(self) -> usize
        ensures value { result ≡ end_number self }
        ensures below { result < 2 }
    {
        self as usize
    }
}

impl TryFrom<u32> for End {
    type Error = Fault;

    ghost try_from_gives = { NamesEnd };

    fn try_from(number: u32) -> Result<End, Fault> {
        match number {
            0 => Ok(End::Zero),
            1 => Ok(End::One),
            _ => Err(Refusal::NoSuchEnd.at(0)),
        }
    }
}
