// Messages and refusals written as lines of text.
ghost use Rattle.std.specs.Prelude.{◌≡◌, Some};
ghost use Rattle.message.specs.Meaning.{meaning, means, credit_number};
ghost use Rattle.notation.specs.Lines.{line, refusal_line, answer_line};

use hex_text::octets::Hex;
use message::content::{Message, ProtocolClass};
use message::fault::Fault;
use std::fmt;
use std::fmt::Display;

// The line of a message: its name, then each field as name=value. An arm for each message, for a match has to be whole.
#[derive(Clone, Copy, PartialEq, Eq, Debug)]
pub struct Line<'a>(pub Message<'a>);

impl fmt::Display for Line<'_> {
    ghost output = { λ it. Some (line (meaning it.0)) };

    fn fmt<W: fmt::Write>(&self, f: &mut fmt::Formatter<W>) -> fmt::Result {
        match self.0 {
            Message::ConnectionRequest {
                source,
                class,
                subsystem,
            } => {
                let number = class.number() as u8;
                let credit = credit_in(class);
                write!(
                    f,
                    "CR source={} class={number} subsystem={} credit={credit}",
                    source.0, subsystem.0
                )
            }
            Message::ConnectionConfirm {
                destination,
                source,
                class,
            } => {
                let number = class.number() as u8;
                let credit = credit_in(class);
                write!(
                    f,
                    "CC destination={} source={} class={number} credit={credit}",
                    destination.0, source.0
                )
            }
            Message::ConnectionRefused { destination, cause } => write!(
                f,
                "CREF destination={} cause={}",
                destination.0, cause.0
            ),
            Message::Released {
                destination,
                source,
                cause,
            } => write!(
                f,
                "RLSD destination={} source={} cause={}",
                destination.0, source.0, cause.0
            ),
            Message::ReleaseComplete {
                destination,
                source,
            } => write!(f, "RLC destination={} source={}", destination.0, source.0),
            Message::DataForm1 {
                destination,
                more,
                data,
            } => {
                let more = u8::from(more);
                let data = Hex(data);
                write!(
                    f,
                    "DT1 destination={} more={more} data={data}",
                    destination.0
                )
            }
            Message::DataForm2 {
                destination,
                send,
                receive,
                more,
                data,
            } => {
                let more = u8::from(more);
                let data = Hex(data);
                write!(
                    f,
                    "DT2 destination={} ps={} pr={} more={more} data={data}",
                    destination.0, send.0, receive.0
                )
            }
            Message::DataAcknowledgement {
                destination,
                receive,
                credit,
            } => write!(
                f,
                "AK destination={} pr={} credit={}",
                destination.0, receive.0, credit.0
            ),
            Message::ResetRequest {
                destination,
                source,
                cause,
            } => write!(
                f,
                "RSR destination={} source={} cause={}",
                destination.0, source.0, cause.0
            ),
            Message::ResetConfirm {
                destination,
                source,
            } => write!(f, "RSC destination={} source={}", destination.0, source.0),
            Message::Error { destination, cause } => write!(
                f,
                "ERR destination={} cause={}",
                destination.0, cause as u8
            ),
        }
    }
}

// The line of a refusal: its number, the layer that refuses, and the octet of the message.
#[derive(Clone, Copy, PartialEq, Eq, Debug)]
pub struct RefusalLine(pub Fault);

impl fmt::Display for RefusalLine {
    ghost output = { λ it. Some (refusal_line it.0) };

    fn fmt<W: fmt::Write>(&self, f: &mut fmt::Formatter<W>) -> fmt::Result {
        let fault = self.0;
        let number = fault.refusal.number();
        let layer = fault.refusal.layer() as u8;
        write!(
            f,
            "refused number={number} layer={layer} place={}",
            fault.place
        )
    }
}

// The line of what octets are read as: a message or a refusal.
#[derive(Clone, Copy, PartialEq, Eq, Debug)]
pub struct AnswerLine<'a>(pub Result<Message<'a>, Fault>);

impl fmt::Display for AnswerLine<'_> {
    ghost output = { λ it. Some (answer_line (means it.0)) };

    fn fmt<W: fmt::Write>(&self, f: &mut fmt::Formatter<W>) -> fmt::Result {
        match self.0 {
            Ok(message) => Line(message).fmt(f),
            Err(fault) => RefusalLine(fault).fmt(f),
        }
    }
}

// The credit as it is shown: 0 where the class has none.
fn credit_in(class: ProtocolClass) -> u8
    ensures { result ≡ credit_number class }
{
    class.credit().map_or(0, |credit| credit.0)
}
