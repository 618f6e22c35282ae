// A reader over the octets of one message: a window that moves on as fields are taken, and the fields themselves.
#![tactic(auto)]

ghost use Rattle.std.specs.Prelude.{◌≡◌, ◌+◌, ◌<◌};
ghost use Rattle.message.specs.Layout.{more_octet};
ghost use Rattle.reader.specs.Window.{Window, outcome, nothing};
ghost use Rattle.reader.specs.Reading as reading;
ghost use Rattle.reader.specs.Reading.{Converts};

use message::content::{Reference, SequenceNumber};
use message::fault::{Fault, Refusal};
use std::marker::Model;

mod parts;
mod whole;

pub use whole::read;

// All octets of a message, and the place reached in them: not what is left of them alone, for refusals name places.
#[derive(Drop)]
struct Reader<'a> {
    octets: &'a [u8],
    at: usize,
}

impl<'a> Model for Reader<'a> {
    ghost Value = { Window };

    ghost view = { λ reader. record { octets = reader.octets.now; place = reader.at } };
}

// A pointer: the place where it stands, and the distance to the first octet of its part.
#[derive(Clone, Copy)]
struct Pointer {
    place: usize,
    distance: u8,
}

impl<'a> Reader<'a> {
    // The message has its type, fixed fields and pointers, which are `size` octets.
    #[tactic(auto, unfolding(crate::specs::Reading::header))]
    fn header(&self, size: usize) -> Result<(), Fault>
        ensures { outcome nothing result self.now ≡ reading.header size self.now }
    {
        if self.octets.len() < size {
            return Err(Refusal::CutShort.at(self.octets.len()));
        }
        Ok(())
    }

    // The next octet, or a refusal at the message's length.
    #[tactic(auto, unfolding(crate::specs::Reading::octet))]
    fn octet(&mut self, missing: Refusal) -> Result<u8, Fault>
        ensures { outcome (λ x. x) result self.new ≡ reading.octet missing self.old }
    {
        let Some(octet) = self.octets.get(self.at) else {
            return Err(missing.at(self.octets.len()));
        };
        self.at += 1;
        Ok(*octet)
    }

    // The message ends here, or a refusal at the first octet left.
    #[tactic(auto, unfolding(crate::specs::Reading::ends))]
    fn ends(&self, left: Refusal) -> Result<(), Fault>
        ensures { outcome nothing result self.now ≡ reading.ends left self.now }
    {
        if self.at < self.octets.len() {
            return Err(left.at(self.at));
        }
        Ok(())
    }

    // A length of at least 1 and as many octets, or a refusal at `place`.
    #[tactic(auto, unfolding(crate::specs::Reading::counted))]
    fn counted(&mut self, wrong: Refusal, place: usize) -> Result<&'a [u8], Fault>
        ensures { outcome (λ x. x.now) result self.new ≡ reading.counted wrong place self.old }
    {
        let octets = self.octets;
        let Some(size) = octets.get(self.at) else {
            return Err(wrong.at(place));
        };
        let from = self.at + 1;
        let to = from + usize::from(*size);
        if *size == 0 || to > octets.len() {
            return Err(wrong.at(place));
        }
        self.at = to;
        Ok(&octets[from..to])
    }

    #[tactic(auto, unfolding(crate::specs::Reading::reference))]
    fn reference(&mut self) -> Result<Reference, Fault>
        ensures { outcome (λ x. x.0) result self.new ≡ reading.reference self.old }
    {
        let place = self.at;
        let low = self.octet(Refusal::CutShort)?;
        let middle = self.octet(Refusal::CutShort)?;
        let high = self.octet(Refusal::CutShort)?;
        Reference::try_from([low, middle, high]).map_err(|refusal| refusal.at(place))
    }

    // A field of one octet that stands for something: what its conversion refuses is refused at its place.
    fn field<T: TryFrom<u8, Error = Refusal>>(&mut self) -> Result<T, Fault>
        ensures { Converts T.try_from_gives result self.new self.old }
    {
        let place = self.at;
        let octet = self.octet(Refusal::CutShort)?;
        T::try_from(octet).map_err(|refusal| refusal.at(place))
    }

    // M by itself in an octet. No `field`, for bool has no conversion from an octet.
    #[tactic(auto, unfolding(crate::specs::Reading::field))]
    fn more(&mut self) -> Result<bool, Fault>
        ensures { outcome more_octet result self.new ≡ reading.field 0 1 self.old }
    {
        let place = self.at;
        match self.octet(Refusal::CutShort)? {
            0 => Ok(false),
            1 => Ok(true),
            _ => Err(Refusal::FieldValue.at(place)),
        }
    }

    // A sequence number by itself in an octet: twice its value, which is no conversion of SequenceNumber.
    #[tactic(auto, unfolding(crate::specs::Reading::sequence_number))]
    fn sequence_number(&mut self) -> Result<SequenceNumber, Fault>
        ensures { outcome (λ x. x.0) result self.new ≡ reading.sequence_number self.old }
    {
        let place = self.at;
        let twice = self.octet(Refusal::CutShort)?;
        if twice % 2 != 0 {
            return Err(Refusal::FieldValue.at(place));
        }
        Ok(SequenceNumber(twice / 2))
    }

    #[tactic(auto, unfolding(crate::specs::Reading::pointer))]
    fn pointer(&mut self) -> Result<Pointer, Fault>
        ensures { outcome (λ x. (x.place, x.distance)) result self.new ≡ reading.pointer self.old }
    {
        let place = self.at;
        let distance = self.octet(Refusal::CutShort)?;
        Ok(Pointer { place, distance })
    }
}
