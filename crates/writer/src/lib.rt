// Messages written to the front of a buffer.
#![tactic(auto)]

ghost use Rattle.std.specs.Prelude.{◌≡◌, ◌+◌, ◌≤◌, true, ◌∷◌, ◌++◌, length, take, drop, IfOk, Ok};
ghost use Rattle.message.specs.Content as content;
ghost use Rattle.message.specs.Layout.{layout, reference_octets};
ghost use Rattle.message.specs.Meaning.{meaning, error_number};
ghost use Rattle.message.specs.Types.{type_octet};
ghost use Rattle.reader.specs.Reading.{reading};
ghost use Rattle.writer.specs.Writing.{laid, written_answer, written_buffer};

use message::content::{
    Cause, ClassNumber, Credit, ErrorCause, Message, ProtocolClass, Reference, SequenceNumber,
    Subsystem,
};
use message::fault::{Fault, Refusal};
use message::kind::{self, MessageType};

mod example;
#[cfg(test)]
mod tests;

pub use example::example_request;

// Writes a message to the front of a buffer of at least 268 octets, and answers its size. The rest of the buffer keeps its contents.
// The buffer is the caller's, since nothing is allocated, and it is tested here, for a writer knows of no routes.
pub fn write(message: Message<'_>, buffer: &mut [u8]) -> Result<usize, Fault>
    ensures answer { result ≡ written_answer (meaning message.entry) buffer.old }
    ensures after { buffer.new ≡ written_buffer (meaning message.entry) buffer.old }
    ensures reads_back { IfOk result (λ size. reading (take size buffer.new) ≡ Ok (meaning message.entry)) }
{
    if buffer.len() < kind::LARGEST_MESSAGE {
        return Err(Refusal::MemorySize.at(0));
    }
    if !message.fits() {
        return Err(Refusal::OutOfLimits.at(0));
    }
    Ok(lay_out(message, buffer))
}

// A message at the front of a buffer. Layouts are arrays, octet by octet as they stand on the line, whose sizes the compiler
// knows. A match, and not a table of functions, for it has to be whole.
fn lay_out(message: Message<'_>, buffer: &mut [u8]) -> usize
    requires fits { content.within (meaning message) ≡ true }
    requires room { 268 ≤ length buffer.old }
    ensures size { result ≡ length (layout (meaning message.entry)) }
    ensures after { buffer.new ≡ laid (meaning message.entry) buffer.old }
{
    match message {
        Message::ConnectionRequest {
            source,
            class: ProtocolClass::Class2,
            subsystem,
        } => front(buffer, &request_of_class_2(source, subsystem)),
        Message::ConnectionRequest {
            source,
            class: ProtocolClass::Class3 { credit },
            subsystem,
        } => front(buffer, &request_of_class_3(source, credit, subsystem)),
        Message::ConnectionConfirm {
            destination,
            source,
            class: ProtocolClass::Class2,
        } => front(buffer, &confirm_of_class_2(destination, source)),
        Message::ConnectionConfirm {
            destination,
            source,
            class: ProtocolClass::Class3 { credit },
        } => front(buffer, &confirm_of_class_3(destination, source, credit)),
        Message::ConnectionRefused { destination, cause } => front(
            buffer,
            &connection_refused(destination, cause),
        ),
        Message::Released {
            destination,
            source,
            cause,
        } => front(buffer, &released(destination, source, cause)),
        Message::ReleaseComplete {
            destination,
            source,
        } => front(
            buffer,
            &two_references(MessageType::ReleaseComplete, destination, source),
        ),
        Message::DataForm1 {
            destination,
            more,
            data,
        } => with_data(buffer, &data_form_1(destination, more, data), data),
        Message::DataForm2 {
            destination,
            send,
            receive,
            more,
            data,
        } => with_data(
            buffer,
            &data_form_2(destination, send, receive, more, data),
            data,
        ),
        Message::DataAcknowledgement {
            destination,
            receive,
            credit,
        } => front(buffer, &data_acknowledgement(destination, receive, credit)),
        Message::ResetRequest {
            destination,
            source,
            cause,
        } => front(buffer, &reset_request(destination, source, cause)),
        Message::ResetConfirm {
            destination,
            source,
        } => front(
            buffer,
            &two_references(MessageType::ResetConfirm, destination, source),
        ),
        Message::Error { destination, cause } => front(buffer, &error(destination, cause)),
    }
}

fn request_of_class_2(source: Reference, subsystem: Subsystem) -> [u8; 10]
    ensures { result ≡ layout (content.connection_request source.0 2 0 subsystem.0) }
{
    let [s0, s1, s2] = <[u8; 3]>::from(source);
    [
        MessageType::ConnectionRequest as u8,
        s0,
        s1,
        s2,
        ClassNumber::Two as u8,
        2,
        0,
        2,
        kind::ADDRESS_BY_SUBSYSTEM,
        subsystem.0,
    ]
}

fn request_of_class_3(source: Reference, credit: Credit, subsystem: Subsystem) -> [u8; 14]
    ensures { result ≡ layout (content.connection_request source.0 3 credit.0 subsystem.0) }
{
    let [s0, s1, s2] = <[u8; 3]>::from(source);
    [
        MessageType::ConnectionRequest as u8,
        s0,
        s1,
        s2,
        ClassNumber::Three as u8,
        2,
        4,
        2,
        kind::ADDRESS_BY_SUBSYSTEM,
        subsystem.0,
        kind::CREDIT_PARAMETER,
        1,
        credit.0,
        kind::END_OF_PARAMETERS,
    ]
}

fn confirm_of_class_2(destination: Reference, source: Reference) -> [u8; 9]
    ensures { result ≡ layout (content.connection_confirm destination.0 source.0 2 0) }
{
    let [d0, d1, d2] = <[u8; 3]>::from(destination);
    let [s0, s1, s2] = <[u8; 3]>::from(source);
    [
        MessageType::ConnectionConfirm as u8,
        d0,
        d1,
        d2,
        s0,
        s1,
        s2,
        ClassNumber::Two as u8,
        0,
    ]
}

fn confirm_of_class_3(destination: Reference, source: Reference, credit: Credit) -> [u8; 13]
    ensures { result ≡ layout (content.connection_confirm destination.0 source.0 3 credit.0) }
{
    let [d0, d1, d2] = <[u8; 3]>::from(destination);
    let [s0, s1, s2] = <[u8; 3]>::from(source);
    [
        MessageType::ConnectionConfirm as u8,
        d0,
        d1,
        d2,
        s0,
        s1,
        s2,
        ClassNumber::Three as u8,
        1,
        kind::CREDIT_PARAMETER,
        1,
        credit.0,
        kind::END_OF_PARAMETERS,
    ]
}

fn connection_refused(destination: Reference, cause: Cause) -> [u8; 6]
    ensures { result ≡ layout (content.connection_refused destination.0 cause.0) }
{
    let [d0, d1, d2] = <[u8; 3]>::from(destination);
    [MessageType::ConnectionRefused as u8, d0, d1, d2, cause.0, 0]
}

fn released(destination: Reference, source: Reference, cause: Cause) -> [u8; 9]
    ensures { result ≡ layout (content.released destination.0 source.0 cause.0) }
{
    let [d0, d1, d2] = <[u8; 3]>::from(destination);
    let [s0, s1, s2] = <[u8; 3]>::from(source);
    [
        MessageType::Released as u8,
        d0,
        d1,
        d2,
        s0,
        s1,
        s2,
        cause.0,
        0,
    ]
}

// RLC and RSC: a destination and a source.
fn two_references(kind: MessageType, destination: Reference, source: Reference) -> [u8; 7]
    ensures { result ≡ type_octet kind ∷ reference_octets destination.0 ++ reference_octets source.0 }
{
    let [d0, d1, d2] = <[u8; 3]>::from(destination);
    let [s0, s1, s2] = <[u8; 3]>::from(source);
    [kind as u8, d0, d1, d2, s0, s1, s2]
}

fn data_form_1(destination: Reference, more: bool, data: &[u8]) -> [u8; 7]
    requires { length «data».now ≤ 255 }
    ensures { result ++ «data».now ≡ layout (content.data_form_1 destination.0 more «data».now) }
{
    let [d0, d1, d2] = <[u8; 3]>::from(destination);
    let size = data.len() as u8;
    [
        MessageType::DataForm1 as u8,
        d0,
        d1,
        d2,
        u8::from(more),
        1,
        size,
    ]
}

fn data_form_2(
    destination: Reference,
    send: SequenceNumber,
    receive: SequenceNumber,
    more: bool,
    data: &[u8],
) -> [u8; 8]
    requires send { send.0 ≤ 127 }
    requires receive { receive.0 ≤ 127 }
    requires size { length «data».now ≤ 255 }
    ensures { result ++ «data».now ≡ layout (content.data_form_2 destination.0 send.0 receive.0 more «data».now) }
{
    let [d0, d1, d2] = <[u8; 3]>::from(destination);
    let size = data.len() as u8;
    [
        MessageType::DataForm2 as u8,
        d0,
        d1,
        d2,
        send.0 * 2,
        receive.0 * 2 + u8::from(more),
        1,
        size,
    ]
}

fn data_acknowledgement(destination: Reference, receive: SequenceNumber, credit: Credit) -> [u8; 6]
    requires { receive.0 ≤ 127 }
    ensures { result ≡ layout (content.data_acknowledgement destination.0 receive.0 credit.0) }
{
    let [d0, d1, d2] = <[u8; 3]>::from(destination);
    [
        MessageType::DataAcknowledgement as u8,
        d0,
        d1,
        d2,
        receive.0 * 2,
        credit.0,
    ]
}

fn reset_request(destination: Reference, source: Reference, cause: Cause) -> [u8; 8]
    ensures { result ≡ layout (content.reset_request destination.0 source.0 cause.0) }
{
    let [d0, d1, d2] = <[u8; 3]>::from(destination);
    let [s0, s1, s2] = <[u8; 3]>::from(source);
    [
        MessageType::ResetRequest as u8,
        d0,
        d1,
        d2,
        s0,
        s1,
        s2,
        cause.0,
    ]
}

fn error(destination: Reference, cause: ErrorCause) -> [u8; 5]
    ensures { result ≡ layout (content.error destination.0 (error_number cause)) }
{
    let [d0, d1, d2] = <[u8; 3]>::from(destination);
    [MessageType::Error as u8, d0, d1, d2, cause as u8]
}

// Copies octets to the front of a buffer, and answers their number.
fn front(buffer: &mut [u8], octets: &[u8]) -> usize
    requires { length octets.now ≤ length buffer.old }
    ensures size { result ≡ length octets.now }
    ensures after { buffer.new ≡ octets.now ++ drop (length octets.now) buffer.old }
{
    buffer[..octets.len()].copy_from_slice(octets);
    octets.len()
}

// Copies octets and the data behind them to the front of a buffer, and answers their number.
fn with_data(buffer: &mut [u8], octets: &[u8], data: &[u8]) -> usize
    requires { length octets.now + length «data».now ≤ length buffer.old }
    ensures size { result ≡ length (octets.now ++ «data».now) }
    ensures after { buffer.new ≡ (octets.now ++ «data».now) ++ drop (length (octets.now ++ «data».now)) buffer.old }
{
    let from = octets.len();
    let size = from + data.len();
    buffer[..from].copy_from_slice(octets);
    buffer[from..size].copy_from_slice(data);
    size
}
