// The types of messages, and the octets and sizes that layouts share.
ghost use Rattle.std.specs.Prelude.{◌≡◌};
ghost use Rattle.message.specs.Types.{ReadsType};

use crate::fault::{Fault, Refusal};

// The eleven types, by the octets that stand for them.
#[derive(Clone, Copy, PartialEq, Eq, Debug)]
pub enum MessageType {
    ConnectionRequest = 0x01,
    ConnectionConfirm = 0x02,
    ConnectionRefused = 0x03,
    Released = 0x04,
    ReleaseComplete = 0x05,
    DataForm1 = 0x06,
    DataForm2 = 0x07,
    DataAcknowledgement = 0x08,
    ResetRequest = 0x0d,
    ResetConfirm = 0x0e,
    Error = 0x0f,
}

// The type is the first octet of a message.
impl TryFrom<u8> for MessageType {
    type Error = Fault;

    ghost try_from_gives = { ReadsType };

    fn try_from(octet: u8) -> Result<MessageType, Fault> {
        match octet {
            0x01 => Ok(MessageType::ConnectionRequest),
            0x02 => Ok(MessageType::ConnectionConfirm),
            0x03 => Ok(MessageType::ConnectionRefused),
            0x04 => Ok(MessageType::Released),
            0x05 => Ok(MessageType::ReleaseComplete),
            0x06 => Ok(MessageType::DataForm1),
            0x07 => Ok(MessageType::DataForm2),
            0x08 => Ok(MessageType::DataAcknowledgement),
            0x0d => Ok(MessageType::ResetRequest),
            0x0e => Ok(MessageType::ResetConfirm),
            0x0f => Ok(MessageType::Error),
            _ => Err(Refusal::UnknownType.at(0)),
        }
    }
}

// The most octets that a message has, and the fewest that a buffer for one has.
pub const LARGEST_MESSAGE: usize = 268;

// The first octet of a called address: routed by the subsystem number, which alone follows.
pub const ADDRESS_BY_SUBSYSTEM: u8 = 0x42;

// The name of the credit parameter, and the 00 that ends an optional part.
pub const CREDIT_PARAMETER: u8 = 0x09;

pub const END_OF_PARAMETERS: u8 = 0x00;
