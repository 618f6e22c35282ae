// What a message says: the eleven messages with typed fields. The data of a segment is borrowed.
ghost use Rattle.std.specs.Prelude.{◌≡◌, nat_le};
ghost use Rattle.message.specs.Content.{within, between, reference_fits, class_fits};
ghost use Rattle.message.specs.Layout.{reference_octets};
ghost use Rattle.message.specs.Fields.{ReadsReference, ReadsField};
ghost use Rattle.message.specs.Meaning.{meaning, class_number, credit_number, credit_of, cause_octet, credit_octet, error_number, class_octet};

use crate::fault::Refusal;

// A local reference: the number that one end gave to its section of a connection. 1 to 16,777,215.
#[derive(Clone, Copy, PartialEq, Eq, Debug)]
pub struct Reference(pub u32);

// The number of the subsystem that is called: 1 to 255.
#[derive(Clone, Copy, PartialEq, Eq, Debug)]
pub struct Subsystem(pub u8);

// The window size of a class 3 connection: 1 to 127.
#[derive(Clone, Copy, PartialEq, Eq, Debug)]
pub struct Credit(pub u8);

// P(S) or P(R): a segment's number modulo 128, 0 to 127.
#[derive(Clone, Copy, PartialEq, Eq, Debug)]
pub struct SequenceNumber(pub u8);

// The cause of a refusal, a release or a reset: 0 to 15.
#[derive(Clone, Copy, PartialEq, Eq, Debug)]
pub struct Cause(pub u8);

// The cause in ERR, as it stands there.
#[derive(Clone, Copy, PartialEq, Eq, Debug)]
pub enum ErrorCause {
    UnassignedDestination = 0,
    InconsistentSource = 1,
    PointCodeMismatch = 2,
    ClassMismatch = 3,
    Unqualified = 4,
}

// The protocol class as it stands in CR and CC, where its credit comes further behind.
#[derive(Clone, Copy, PartialEq, Eq, Debug)]
pub enum ClassNumber {
    Two = 2,
    Three = 3,
}

// The protocol class, with the credit that class 3 has.
#[derive(Clone, Copy, PartialEq, Eq, Debug)]
pub enum ProtocolClass {
    Class2,
    Class3 { credit: Credit },
}

// Destination and source are two fields, as in the layouts: a struct for the pair would make no message plainer.
#[derive(Clone, Copy, PartialEq, Eq, Debug)]
pub enum Message<'a> {
    // CR
    ConnectionRequest {
        source: Reference,
        class: ProtocolClass,
        subsystem: Subsystem,
    },
    // CC
    ConnectionConfirm {
        destination: Reference,
        source: Reference,
        class: ProtocolClass,
    },
    // CREF
    ConnectionRefused {
        destination: Reference,
        cause: Cause,
    },
    // RLSD
    Released {
        destination: Reference,
        source: Reference,
        cause: Cause,
    },
    // RLC
    ReleaseComplete {
        destination: Reference,
        source: Reference,
    },
    // DT1
    DataForm1 {
        destination: Reference,
        more: bool,
        data: &'a [u8],
    },
    // DT2
    DataForm2 {
        destination: Reference,
        send: SequenceNumber,
        receive: SequenceNumber,
        more: bool,
        data: &'a [u8],
    },
    // AK
    DataAcknowledgement {
        destination: Reference,
        receive: SequenceNumber,
        credit: Credit,
    },
    // RSR
    ResetRequest {
        destination: Reference,
        source: Reference,
        cause: Cause,
    },
    // RSC
    ResetConfirm {
        destination: Reference,
        source: Reference,
    },
    // ERR
    Error {
        destination: Reference,
        cause: ErrorCause,
    },
}

impl Message<'_> {
    // Every field is within its limits.
    pub fn fits(self) -> bool
        ensures { result ≡ within (meaning self.entry) }
    {
        match self {
            Message::ConnectionRequest {
                source,
                class,
                subsystem,
            } => source.fits() && class.fits() && subsystem.0 >= 1,
            Message::ConnectionConfirm {
                destination,
                source,
                class,
            } => destination.fits() && source.fits() && class.fits(),
            Message::ConnectionRefused { destination, cause } => destination.fits() && cause.fits(),
            Message::Released {
                destination,
                source,
                cause,
            }
            | Message::ResetRequest {
                destination,
                source,
                cause,
            } => destination.fits() && source.fits() && cause.fits(),
            Message::ReleaseComplete {
                destination,
                source,
            }
            | Message::ResetConfirm {
                destination,
                source,
            } => destination.fits() && source.fits(),
            Message::DataForm1 {
                destination,
                data,
                ..
            } => destination.fits() && (1..=255).contains(&data.len()),
            Message::DataForm2 {
                destination,
                send,
                receive,
                data,
                ..
            } => {
                destination.fits()
                    && send.fits()
                    && receive.fits()
                    && (1..=255).contains(&data.len())
            }
            Message::DataAcknowledgement {
                destination,
                receive,
                credit,
            } => destination.fits() && receive.fits() && credit.fits(),
            Message::Error { destination, .. } => destination.fits(),
        }
    }
}

// What three octets are read as, the lowest first: a reference is not 0.
impl TryFrom<[u8; 3]> for Reference {
    type Error = Refusal;

    ghost try_from_gives = { ReadsReference };

    fn try_from(octets: [u8; 3]) -> Result<Reference, Refusal> {
        let [low, middle, high] = octets;
        match u32::from_le_bytes([low, middle, high, 0]) {
            0 => Err(Refusal::FieldValue),
            value => Ok(Reference(value)),
        }
    }
}

// Three octets, the lowest first. What is beyond them is not written.
impl From<Reference> for [u8; 3] {
    ghost from_gives = { λ reference octets. octets ≡ reference_octets reference.0 };

    fn from(reference: Reference) -> [u8; 3] {
        let [low, middle, high, _] = reference.0.to_le_bytes();
        [low, middle, high]
    }
}

impl TryFrom<u8> for ErrorCause {
    type Error = Refusal;

    ghost try_from_gives = { ReadsField error_number 0 4 };

    fn try_from(octet: u8) -> Result<ErrorCause, Refusal> {
        match octet {
            0 => Ok(ErrorCause::UnassignedDestination),
            1 => Ok(ErrorCause::InconsistentSource),
            2 => Ok(ErrorCause::PointCodeMismatch),
            3 => Ok(ErrorCause::ClassMismatch),
            4 => Ok(ErrorCause::Unqualified),
            _ => Err(Refusal::FieldValue),
        }
    }
}

impl TryFrom<u8> for ClassNumber {
    type Error = Refusal;

    ghost try_from_gives = { ReadsField class_octet 2 3 };

    fn try_from(octet: u8) -> Result<ClassNumber, Refusal> {
        match octet {
            2 => Ok(ClassNumber::Two),
            3 => Ok(ClassNumber::Three),
            _ => Err(Refusal::FieldValue),
        }
    }
}

// Fields of one octet are types of their own, each with its limits. As one type with the limits for const parameters their
// names would be aliases, and no alias makes a value as Credit(4) does; a trait for both conversions is longer than the two.
impl TryFrom<u8> for Cause {
    type Error = Refusal;

    ghost try_from_gives = { ReadsField cause_octet 0 15 };

    fn try_from(octet: u8) -> Result<Cause, Refusal> {
        let cause = Cause(octet);
        cause.fits().then_some(cause).ok_or(Refusal::FieldValue)
    }
}

impl TryFrom<u8> for Credit {
    type Error = Refusal;

    ghost try_from_gives = { ReadsField credit_octet 1 127 };

    fn try_from(octet: u8) -> Result<Credit, Refusal> {
        let credit = Credit(octet);
        credit.fits().then_some(credit).ok_or(Refusal::FieldValue)
    }
}

impl Reference {
    fn fits(self) -> bool
        ensures { result ≡ reference_fits self.0 }
    {
        (1..=16_777_215).contains(&self.0)
    }
}

impl Credit {
    fn fits(self) -> bool
        ensures { result ≡ between 1 127 self.0 }
    {
        (1..=127).contains(&self.0)
    }
}

impl SequenceNumber {
    fn fits(self) -> bool
        ensures { result ≡ nat_le self.0 127 }
    {
        self.0 <= 127
    }
}

impl Cause {
    fn fits(self) -> bool
        ensures { result ≡ nat_le self.0 15 }
    {
        self.0 <= 15
    }
}

impl ProtocolClass {
    pub fn number(self) -> ClassNumber
        ensures { class_octet result ≡ class_number self }
    {
        match self {
            ProtocolClass::Class2 => ClassNumber::Two,
            ProtocolClass::Class3 { .. } => ClassNumber::Three,
        }
    }

    // Class 2 has no credit.
    pub fn credit(self) -> Option<Credit>
        ensures { result ≡ credit_of self }
    {
        match self {
            ProtocolClass::Class2 => None,
            ProtocolClass::Class3 { credit } => Some(credit),
        }
    }

    fn fits(self) -> bool
        ensures { result ≡ class_fits (class_number self) (credit_number self) }
    {
        self.credit().is_none_or(Credit::fits)
    }
}
