// The variable part and the optional part of a message.
ghost use Rattle.std.specs.Prelude.{◌≡◌, ◌<◌};
ghost use Rattle.message.specs.Meaning.{classes, class_octet};
ghost use Rattle.reader.specs.Window.{outcome, nothing};
ghost use Rattle.reader.specs.Reading as reading;

use crate::{Pointer, Reader};
use message::content::{ClassNumber, Credit, ProtocolClass, Subsystem};
use message::fault::{Fault, Refusal};
use message::kind;

impl<'a> Reader<'a> {
    #[tactic(auto, unfolding(crate::specs::Reading::points_here))]
    pub(crate) fn points_here(&self, pointer: Pointer) -> Result<(), Fault>
        ensures { outcome nothing result self.now ≡ reading.points_here (pointer.place, pointer.distance) self.now }
    {
        if self.at.checked_sub(pointer.place) == Some(usize::from(pointer.distance)) {
            Ok(())
        } else {
            Err(Refusal::VariablePart.at(pointer.place))
        }
    }

    #[tactic(auto, unfolding(crate::specs::Reading::variable))]
    pub(crate) fn variable(&mut self) -> Result<&'a [u8], Fault>
        ensures { outcome (λ x. x.now) result self.new ≡ reading.variable self.old }
    {
        let place = self.at;
        self.counted(Refusal::VariablePart, place)
    }

    // 42 (hexadecimal) and a subsystem number that is not 0.
    #[tactic(auto, unfolding(crate::specs::Reading::called_address))]
    pub(crate) fn called_address(&mut self) -> Result<Subsystem, Fault>
        ensures { outcome (λ x. x.0) result self.new ≡ reading.called_address self.old }
    {
        let place = self.at;
        match self.variable()? {
            [kind::ADDRESS_BY_SUBSYSTEM, subsystem @ 1..] => Ok(Subsystem(*subsystem)),
            _ => Err(Refusal::VariablePart.at(place)),
        }
    }

    // V and a segment's data straight behind it, which end the message.
    #[tactic(auto, unfolding(crate::specs::Reading::segment))]
    pub(crate) fn segment(&mut self) -> Result<&'a [u8], Fault>
        ensures { outcome (λ x. x.now) result self.new ≡ reading.segment self.old }
    {
        let pointer = self.pointer()?;
        self.points_here(pointer)?;
        let data = self.variable()?;
        self.ends(Refusal::VariablePart)?;
        Ok(data)
    }

    // V, O and the called address straight behind them: the subsystem, and O.
    #[tactic(auto, unfolding(crate::specs::Reading::called_party))]
    pub(crate) fn called_party(&mut self) -> Result<(Subsystem, Pointer), Fault>
        ensures { outcome (λ x. (x.0.0, (x.1.place, x.1.distance))) result self.new ≡ reading.called_party self.old }
    {
        let variable = self.pointer()?;
        let optional = self.pointer()?;
        self.points_here(variable)?;
        let subsystem = self.called_address()?;
        Ok((subsystem, optional))
    }

    // What O points to: nothing where it is 00, otherwise an optional part. Answers the credit found in it.
    // `due`: whether a credit is due, which is a truth value; an enum would name it yes and no.
    #[tactic(auto, unfolding(crate::specs::Reading::optional_part))]
    pub(crate) fn optional_part(&mut self, due: bool, pointer: Pointer) -> Result<Option<u8>, Fault>
        ensures { outcome (λ x. x) result self.new ≡ reading.optional_part due (pointer.place, pointer.distance) self.old }
    {
        if pointer.distance == 0 {
            self.ends(Refusal::VariablePart)?;
            return Ok(None);
        }
        self.points_here(pointer)?;
        self.parameters(due, None)
    }

    // An optional part: the octet 00, or a parameter followed by an optional part.
    #[tactic(auto, unfolding(crate::specs::Reading::parameters))]
    fn parameters(&mut self, due: bool, found: Option<u8>) -> Result<Option<u8>, Fault>
        ensures { outcome (λ x. x) result self.new ≡ reading.any_parameters due found self.old }
    {
        let named = self.at;
        let name = self.octet(Refusal::OptionalPart)?;
        if name == kind::END_OF_PARAMETERS {
            self.ends(Refusal::OptionalPart)?;
            return Ok(found);
        }
        let part = self.counted(Refusal::OptionalPart, named)?;
        let known = credit_after(due, found, named, name, part)?;
        self.parameters(due, known)
    }
}

// The credit known after a parameter: a second or misfit credit is refused, any other parameter is stepped over.
#[tactic(auto, unfolding(crate::specs::Reading::credit_after))]
fn credit_after(
    due: bool,
    found: Option<u8>,
    named: usize,
    name: u8,
    part: &[u8],
) -> Result<Option<u8>, Fault>
    ensures { result ≡ reading.credit_after due found named name part.now }
{
    if !due || name != kind::CREDIT_PARAMETER {
        return Ok(found);
    }
    match (found, part) {
        (None, [credit]) => Ok(Some(*credit)),
        _ => Err(Refusal::OptionalPart.at(named)),
    }
}

// Class 2 has no credit, class 3 one of 1 to 127.
#[tactic(auto, unfolding(crate::specs::Reading::agreed))]
pub(crate) fn agreed(
    place: usize,
    class: ClassNumber,
    found: Option<u8>,
) -> Result<ProtocolClass, Fault>
    ensures { classes result ≡ reading.agreed place (class_octet class) found }
{
    match (class, found) {
        (ClassNumber::Two, None) => Ok(ProtocolClass::Class2),
        (ClassNumber::Three, Some(credit @ 1..=127)) => Ok(ProtocolClass::Class3 {
            credit: Credit(credit),
        }),
        _ => Err(Refusal::CreditMisfit.at(place)),
    }
}
