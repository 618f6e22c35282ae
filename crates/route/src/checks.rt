// The checks that all routes share.
ghost use Rattle.std.specs.Prelude.{◌≡◌, min, length, nat_lt, if◌then◌else◌, Ok};
ghost use Rattle.message.specs.declared.fault.Refusal.TheVariants.{MemorySize, MessageLength};
ghost use Rattle.route.specs.Ways.{refused, message_sized, most};

use message::fault::{Fault, Refusal};
use message::kind;

// A message has 1 to 268 octets.
pub fn check_length(message: &[u8]) -> Result<(), Fault>
    ensures { result ≡ (if message_sized message.now then Ok tt else refused MessageLength) }
{
    if !(1..=kind::LARGEST_MESSAGE).contains(&message.len()) {
        return Err(Refusal::MessageLength.at(0));
    }
    Ok(())
}

// A buffer for a message has at least 268 octets.
pub fn check_buffer(buffer: &[u8]) -> Result<(), Fault>
    ensures { result ≡ (if nat_lt (length buffer.now) 268 then refused MemorySize else Ok tt) }
{
    if buffer.len() < kind::LARGEST_MESSAGE {
        return Err(Refusal::MemorySize.at(0));
    }
    Ok(())
}

// A number as COUNT and ROOM answer it.
pub fn capped(number: usize) -> u32
    ensures { result ≡ min number most }
{
    u32::try_from(number).unwrap_or(u32::MAX)
}
