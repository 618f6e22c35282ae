// The calls of a route, over queues.
ghost use Rattle.std.specs.Prelude.{◌≡◌};

use crate::checks::{capped, check_buffer};
use crate::end::End;
use crate::queues::Queues;
use crate::slot::Slot;
use crate::{BenchRoute, Route};
use message::fault::{Fault, Refusal};

impl<Q: Queues> Route for Q {
    ghost ways = { λ q. Q.Queues.ways q };

    ghost sound = { λ q. Q.Queues.sound q };

    fn put(&mut self, end: u32, message: &[u8]) -> Result<(), Fault> {
        let end = End::try_from(end)?;
        let slot = Slot::try_from(message)?;
        self.push(end, slot).map_err(|_| Refusal::WayFull.at(0))
    }

    fn take(&mut self, end: u32, buffer: &mut [u8]) -> Result<usize, Fault> {
        check_buffer(buffer)?;
        let end = End::try_from(end)?;
        let Some(slot) = self.remove(end, 0) else {
            return Err(Refusal::NoMessage.at(0));
        };
        let message = slot.message();
        buffer[0..message.len()].copy_from_slice(message);
        Ok(message.len())
    }

    // COUNT and ROOM tell two numbers, in a line each: one function for both would take the number as a closure.
    fn count(&self, end: u32) -> Result<u32, Fault> {
        Ok(capped(self.waiting(End::try_from(end)?)))
    }

    fn room(&self, end: u32) -> Result<u32, Fault> {
        Ok(capped(self.spare(End::try_from(end)?)))
    }
}

impl<Q: Queues> BenchRoute for Q {
    fn lose(&mut self, end: u32, position: u32) -> Result<(), Fault> {
        let end = End::try_from(end)?;
        match self.remove(end, position as usize) {
            Some(_) => Ok(()),
            None => Err(Refusal::NoMessage.at(0)),
        }
    }
}
