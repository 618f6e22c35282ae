// Why a call is refused: the one error type of the whole stack.
ghost use Rattle.std.specs.Prelude.{◌≡◌};
ghost use Rattle.message.specs.Refusals.{number as number_of, layer as layer_of, NumbersApart};

// The part of the stack that refuses.
#[derive(Clone, Copy, PartialEq, Eq, Debug)]
pub enum Layer {
    Route = 1,
    Message = 2,
    Node = 3,
}

// The eighteen refusals with their numbers, in the order in which they are checked.
#[derive(Clone, Copy, PartialEq, Eq, Debug)]
pub enum Refusal {
    // a table, unit memory, buffer or route of a wrong size
    MemorySize = 1,
    // an end other than 0 and 1
    NoSuchEnd = 2,
    // no message stands there
    NoMessage = 3,
    // a message of 0 or over 268 octets
    MessageLength = 4,
    // a type that is not one of the eleven
    UnknownType = 5,
    // the message ends within its fixed fields or pointers
    CutShort = 6,
    // a fixed field has a value that is not listed
    FieldValue = 7,
    // a wrong pointer, a bad variable part, or octets left over
    VariablePart = 8,
    // a bad parameter, a missing end, or octets behind the end
    OptionalPart = 9,
    // class 3 without a credit of 1 to 127, or class 2 with one
    CreditMisfit = 10,
    // a reference of 0 or beyond the table
    NoSuchReference = 11,
    // a value outside its limits
    OutOfLimits = 12,
    // the section's state does not allow the call
    WrongState = 13,
    // the section's class does not allow the call
    WrongClass = 14,
    // no record is idle
    NoIdleRecord = 15,
    // another place of the unit than the one reached
    WrongPlace = 16,
    // the window is full
    WindowFull = 17,
    // the way is full
    WayFull = 18,
}

// A refusal, and the octet of the message at which it arose: 0 outside the message layer.
#[derive(Clone, Copy, PartialEq, Eq, Debug)]
pub struct Fault {
    pub refusal: Refusal,
    pub place: usize,
}

impl Refusal {
    #[tactic(auto, using(crate::proofs::Numbers::numbers_apart))]
    pub fn number(self) -> u8
        ensures value { result ≡ number_of self }
        ensures apart { NumbersApart }
    {
        self as u8
    }

    pub fn layer(self) -> Layer
        ensures { result ≡ layer_of self }
    {
        match self {
            Refusal::NoSuchEnd | Refusal::NoMessage | Refusal::WayFull => Layer::Route,
            Refusal::MessageLength
            | Refusal::UnknownType
            | Refusal::CutShort
            | Refusal::FieldValue
            | Refusal::VariablePart
            | Refusal::OptionalPart
            | Refusal::CreditMisfit => Layer::Message,
            Refusal::MemorySize
            | Refusal::NoSuchReference
            | Refusal::OutOfLimits
            | Refusal::WrongState
            | Refusal::WrongClass
            | Refusal::NoIdleRecord
            | Refusal::WrongPlace
            | Refusal::WindowFull => Layer::Node,
        }
    }

    // This refusal at an octet of the message.
    pub fn at(self, place: usize) -> Fault
        ensures { result ≡ record { refusal = self; place = place } }
    {
        Fault {
            refusal: self,
            place,
        }
    }
}
