// The eleven messages, each as its layout has it behind the type: fixed fields, pointers, the variable part, the optional part.
ghost use Rattle.std.specs.Prelude.{◌≡◌, ◌<◌, true, ◌↔◌, IfOk, Ok};
ghost use Rattle.message.specs.Content.{Content, within};
ghost use Rattle.message.specs.Layout.{IsMessage};
ghost use Rattle.message.specs.Meaning.{meaning, means};
ghost use Rattle.message.specs.Types.{type_octet};
ghost use Rattle.reader.specs.Window.{outcome};
ghost use Rattle.reader.specs.Reading as reading;

use crate::Reader;
use crate::parts::agreed;
use message::content::{Message, Reference, SequenceNumber};
use message::fault::{Fault, Refusal};
use message::kind::{LARGEST_MESSAGE, MessageType};

// What the octets of a message say, or why they are none.
// The length is tested here, and not by a route's check: a reader knows of no routes.
pub fn read<'a>(octets: &'a [u8]) -> Result<Message<'a>, Fault>
    ensures says { means result ≡ reading.reading octets.now }
    ensures laid_out { (c : Content) → (means result ≡ Ok c) ↔ IsMessage c octets.now }
    ensures fits { IfOk result (λ message. within (meaning message) ≡ true) }
{
    if !(1..=LARGEST_MESSAGE).contains(&octets.len()) {
        return Err(Refusal::MessageLength.at(0));
    }
    let kind = MessageType::try_from(octets[0])?;
    let mut reader = Reader { octets, at: 1 };
    reader.message(kind)
}

impl<'a> Reader<'a> {
    // A match, which the compiler sees to be whole: a table of functions by type would not be.
    fn message(&mut self, kind: MessageType) -> Result<Message<'a>, Fault>
        ensures { means result ≡ reading.value (reading.message_of (type_octet kind) self.old) }
    {
        match kind {
            MessageType::ConnectionRequest => self.connection_request(),
            MessageType::ConnectionConfirm => self.connection_confirm(),
            MessageType::ConnectionRefused => self.connection_refused(),
            MessageType::Released => self.released(),
            MessageType::ReleaseComplete => {
                let (destination, source) = self.two_references()?;
                Ok(Message::ReleaseComplete {
                    destination,
                    source,
                })
            }
            MessageType::DataForm1 => self.data_form_1(),
            MessageType::DataForm2 => self.data_form_2(),
            MessageType::DataAcknowledgement => self.data_acknowledgement(),
            MessageType::ResetRequest => self.reset_request(),
            MessageType::ResetConfirm => {
                let (destination, source) = self.two_references()?;
                Ok(Message::ResetConfirm {
                    destination,
                    source,
                })
            }
            MessageType::Error => self.error(),
        }
    }

    #[tactic(auto, using(crate::proofs::Steps::field_converted))]
    fn connection_request(&mut self) -> Result<Message<'a>, Fault>
        ensures { means result ≡ reading.value (reading.connection_request self.old) }
    {
        self.header(7)?;
        let source = self.reference()?;
        let place = self.at;
        let class = self.field()?;
        let (subsystem, optional) = self.called_party()?;
        let found = self.optional_part(true, optional)?;
        let class = agreed(place, class, found)?;
        Ok(Message::ConnectionRequest {
            source,
            class,
            subsystem,
        })
    }

    #[tactic(auto, using(crate::proofs::Steps::field_converted))]
    fn connection_confirm(&mut self) -> Result<Message<'a>, Fault>
        ensures { means result ≡ reading.value (reading.connection_confirm self.old) }
    {
        self.header(9)?;
        let destination = self.reference()?;
        let source = self.reference()?;
        let place = self.at;
        let class = self.field()?;
        let optional = self.pointer()?;
        let found = self.optional_part(true, optional)?;
        let class = agreed(place, class, found)?;
        Ok(Message::ConnectionConfirm {
            destination,
            source,
            class,
        })
    }

    #[tactic(auto, using(crate::proofs::Steps::field_converted))]
    fn connection_refused(&mut self) -> Result<Message<'a>, Fault>
        ensures { means result ≡ reading.value (reading.connection_refused self.old) }
    {
        self.header(6)?;
        let destination = self.reference()?;
        let cause = self.field()?;
        let optional = self.pointer()?;
        self.optional_part(false, optional)?;
        Ok(Message::ConnectionRefused { destination, cause })
    }

    #[tactic(auto, using(crate::proofs::Steps::field_converted))]
    fn released(&mut self) -> Result<Message<'a>, Fault>
        ensures { means result ≡ reading.value (reading.released self.old) }
    {
        self.header(9)?;
        let destination = self.reference()?;
        let source = self.reference()?;
        let cause = self.field()?;
        let optional = self.pointer()?;
        self.optional_part(false, optional)?;
        Ok(Message::Released {
            destination,
            source,
            cause,
        })
    }

    // RLC and RSC: a destination and a source.
    #[tactic(auto, unfolding(crate::specs::Reading::two_references))]
    fn two_references(&mut self) -> Result<(Reference, Reference), Fault>
        ensures { outcome (λ x. (x.0.0, x.1.0)) result self.new ≡ reading.two_references self.old }
    {
        self.header(7)?;
        let destination = self.reference()?;
        let source = self.reference()?;
        self.ends(Refusal::VariablePart)?;
        Ok((destination, source))
    }

    fn data_form_1(&mut self) -> Result<Message<'a>, Fault>
        ensures { means result ≡ reading.value (reading.data_form_1 self.old) }
    {
        self.header(6)?;
        let destination = self.reference()?;
        let more = self.more()?;
        let data = self.segment()?;
        Ok(Message::DataForm1 {
            destination,
            more,
            data,
        })
    }

    fn data_form_2(&mut self) -> Result<Message<'a>, Fault>
        ensures { means result ≡ reading.value (reading.data_form_2 self.old) }
    {
        self.header(7)?;
        let destination = self.reference()?;
        let send = self.sequence_number()?;
        let second = self.octet(Refusal::CutShort)?;
        let data = self.segment()?;
        let receive = SequenceNumber(second / 2);
        Ok(Message::DataForm2 {
            destination,
            send,
            receive,
            more: second % 2 == 1,
            data,
        })
    }

    // As many steps as in `reset_request`, but no twin of it: what they read differs.
    #[tactic(auto, using(crate::proofs::Steps::field_converted))]
    fn data_acknowledgement(&mut self) -> Result<Message<'a>, Fault>
        ensures { means result ≡ reading.value (reading.data_acknowledgement self.old) }
    {
        self.header(6)?;
        let destination = self.reference()?;
        let receive = self.sequence_number()?;
        let credit = self.field()?;
        self.ends(Refusal::VariablePart)?;
        Ok(Message::DataAcknowledgement {
            destination,
            receive,
            credit,
        })
    }

    #[tactic(auto, using(crate::proofs::Steps::field_converted))]
    fn reset_request(&mut self) -> Result<Message<'a>, Fault>
        ensures { means result ≡ reading.value (reading.reset_request self.old) }
    {
        self.header(8)?;
        let destination = self.reference()?;
        let source = self.reference()?;
        let cause = self.field()?;
        self.ends(Refusal::VariablePart)?;
        Ok(Message::ResetRequest {
            destination,
            source,
            cause,
        })
    }

    #[tactic(auto, using(crate::proofs::Steps::field_converted))]
    fn error(&mut self) -> Result<Message<'a>, Fault>
        ensures { means result ≡ reading.value (reading.error self.old) }
    {
        self.header(5)?;
        let destination = self.reference()?;
        let cause = self.field()?;
        self.ends(Refusal::VariablePart)?;
        Ok(Message::Error { destination, cause })
    }
}
