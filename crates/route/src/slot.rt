// Messages in slots.
ghost use Rattle.std.specs.Prelude.{◌≡◌, ◌<◌, ◌≤◌, [], ◌∷◌, length, replicate};
ghost use Rattle.route.specs.Ways.{fronted};

use crate::checks::check_length;
use message::fault::Fault;

// Room for one message: 270 octets, two for its length. It always holds one; whether that one counts is for the route to say.
// An array and a size, since an ArrayVec, whose length is a usize, would have more octets than these; and no derived
// equality, since octets behind the message are none of it.
#[derive(Clone, Copy)]
pub struct Slot {
    size: u16,
    octets: [u8; 268],
    ghost low: { 0 < size },
    ghost high: { size ≤ 268 },
    ghost full: { length octets ≡ 268 },
}

impl Slot {
    ghost use Rattle.route.specs.Stored.{message_of};

    // A slot that is not in use yet.
    pub fn unused() -> Slot
        ensures { message_of result ≡ 0 ∷ [] }
    {
        Slot {
            size: 1,
            octets: [0; 268],
        }
    }

    // The message in the slot.
    pub fn message(&self) -> &[u8]
        ensures { result.now ≡ message_of self.now }
    {
        &self.octets[0..usize::from(self.size)]
    }
}

// A slot that holds a message of 1 to 268 octets.
impl TryFrom<&[u8]> for Slot {
    ghost use Rattle.route.specs.Stored.{Holds};

    type Error = Fault;

    ghost try_from_gives = { λ message r. Holds message.now r };

    fn try_from(message: &[u8]) -> Result<Slot, Fault> {
        check_length(message)?;
        Ok(Slot {
            size: message.len() as u16,
            octets: padded(message),
        })
    }
}

// A message, and zeros behind it.
fn padded(message: &[u8]) -> [u8; 268]
    requires { length message.now ≤ 268 }
    ensures { result ≡ fronted message.now (replicate 268 0) }
{
    let mut octets = [0u8; 268];
    octets[0..message.len()].copy_from_slice(message);
    octets
}
