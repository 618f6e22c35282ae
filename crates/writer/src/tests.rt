// What is written, octet by octet, and what is refused.
use crate::write;
use message::content::{
    Cause, Credit, ErrorCause, Message, ProtocolClass, Reference, SequenceNumber, Subsystem,
};
use message::fault::Refusal;
use std::test::Fail;

const DATA: [u8; 1] = [0xaa];

// Each message and its octets, in the order of the types.
const WRITTEN: [(Message<'static>, &[u8]); 12] = [
    (
        Message::ConnectionRequest {
            source: Reference(5),
            class: ProtocolClass::Class2,
            subsystem: Subsystem(254),
        },
        &[1, 5, 0, 0, 2, 2, 0, 2, 0x42, 254],
    ),
    (
        Message::ConnectionRequest {
            source: Reference(5),
            class: ProtocolClass::Class3 { credit: Credit(4) },
            subsystem: Subsystem(254),
        },
        &[1, 5, 0, 0, 3, 2, 4, 2, 0x42, 254, 9, 1, 4, 0],
    ),
    (
        Message::ConnectionConfirm {
            destination: Reference(5),
            source: Reference(9),
            class: ProtocolClass::Class3 { credit: Credit(4) },
        },
        &[2, 5, 0, 0, 9, 0, 0, 3, 1, 9, 1, 4, 0],
    ),
    (
        Message::ConnectionRefused {
            destination: Reference(0x030201),
            cause: Cause(7),
        },
        &[3, 1, 2, 3, 7, 0],
    ),
    (
        Message::Released {
            destination: Reference(5),
            source: Reference(9),
            cause: Cause(3),
        },
        &[4, 5, 0, 0, 9, 0, 0, 3, 0],
    ),
    (
        Message::ReleaseComplete {
            destination: Reference(5),
            source: Reference(9),
        },
        &[5, 5, 0, 0, 9, 0, 0],
    ),
    (
        Message::DataForm1 {
            destination: Reference(7),
            more: false,
            data: &DATA,
        },
        &[6, 7, 0, 0, 0, 1, 1, 0xaa],
    ),
    (
        Message::DataForm2 {
            destination: Reference(7),
            send: SequenceNumber(3),
            receive: SequenceNumber(1),
            more: true,
            data: &DATA,
        },
        &[7, 7, 0, 0, 6, 3, 1, 1, 0xaa],
    ),
    (
        Message::DataAcknowledgement {
            destination: Reference(7),
            receive: SequenceNumber(127),
            credit: Credit(127),
        },
        &[8, 7, 0, 0, 254, 127],
    ),
    (
        Message::ResetRequest {
            destination: Reference(5),
            source: Reference(9),
            cause: Cause(15),
        },
        &[13, 5, 0, 0, 9, 0, 0, 15],
    ),
    (
        Message::ResetConfirm {
            destination: Reference(5),
            source: Reference(16_777_215),
        },
        &[14, 5, 0, 0, 255, 255, 255],
    ),
    (
        Message::Error {
            destination: Reference(5),
            cause: ErrorCause::ClassMismatch,
        },
        &[15, 5, 0, 0, 3],
    ),
];

// Messages with one field outside its limits.
const UNFIT: [Message<'static>; 6] = [
    Message::ReleaseComplete {
        destination: Reference(0),
        source: Reference(9),
    },
    Message::ResetConfirm {
        destination: Reference(5),
        source: Reference(16_777_216),
    },
    Message::ConnectionRefused {
        destination: Reference(5),
        cause: Cause(16),
    },
    Message::DataForm1 {
        destination: Reference(5),
        more: false,
        data: &[],
    },
    Message::DataAcknowledgement {
        destination: Reference(5),
        receive: SequenceNumber(128),
        credit: Credit(1),
    },
    Message::DataAcknowledgement {
        destination: Reference(5),
        receive: SequenceNumber(0),
        credit: Credit(0),
    },
];

#[test]
fn written(rt: HostRuntime) -> Result<(), Fail> {
    for (message, octets) in WRITTEN {
        let mut buffer = [0xeeu8; 300];
        let size = write(message, &mut buffer)?;
        assert_eq!(rt; size, octets.len());
        assert!(rt; size <= 300);
        assert_eq!(rt; &buffer[0..size], octets);
        assert!(rt; buffer[299] == 0xee);
    }
    Ok(())
}

#[test]
fn unfit(rt: HostRuntime) {
    for message in UNFIT {
        let mut buffer = [0xeeu8; 268];
        assert_eq!(rt;
            write(message, &mut buffer),
            Err(Refusal::OutOfLimits.at(0))
        );
        assert_eq!(rt; buffer, [0xeeu8; 268]);
    }
}

// The buffer is checked before the message.
#[test]
fn small_buffer(rt: HostRuntime) {
    for message in UNFIT {
        let mut buffer = [0xeeu8; 267];
        assert_eq!(rt; write(message, &mut buffer), Err(Refusal::MemorySize.at(0)));
        assert_eq!(rt; buffer, [0xeeu8; 267]);
    }
}
