// Routes: what carries messages between two ends. A route means two lists of messages and a capacity, and nothing else of it shows.
#![tactic(auto)]

ghost use Rattle.std.specs.Prelude.{◌≡◌};
ghost use Rattle.route.specs.Ways.{Ways, Sound};
ghost use Rattle.route.specs.Ways.{put_answer, put_after};
ghost use Rattle.route.specs.Ways.{take_answer, take_buffer, take_after};
ghost use Rattle.route.specs.Ways.{count_answer, room_answer};
ghost use Rattle.route.specs.Ways.{lose_answer, lose_after};

use message::fault::Fault;

pub mod checks;
mod end;
mod over_queues;
mod passing;
mod queues;
mod slot;

pub use end::End;
pub use passing::pass;
pub use queues::Queues;
pub use slot::Slot;

// Messages of 1 to 268 octets on their way toward end 0 and toward end 1, in the order in which they were put.
// An end and a position are numbers and not types of less, for a call answers on any number. What is taken goes into the
// caller's buffer, for a route has no memory of its own.
pub trait Route {
    ghost ways: { Self → Ways };

    // Adds a message behind those toward an end.
    fn put(&mut self, end: u32, message: &[u8]) -> Result<(), Fault>
        ensures answer { result ≡ put_answer end message.now (ways self.old) }
        ensures after { ways self.new ≡ put_after end message.now (ways self.old) };

    // Moves the oldest message toward an end to the front of a buffer of at least 268 octets, and answers its length.
    fn take(&mut self, end: u32, buffer: &mut [u8]) -> Result<usize, Fault>
        ensures answer { result ≡ take_answer end buffer.old (ways self.old) }
        ensures filled { buffer.new ≡ take_buffer end buffer.old (ways self.old) }
        ensures after { ways self.new ≡ take_after end buffer.old (ways self.old) };

    // How many messages there are toward an end.
    fn count(&self, end: u32) -> Result<u32, Fault>
        ensures { result ≡ count_answer end (ways self.now) };

    // How many more there can be.
    fn room(&self, end: u32) -> Result<u32, Fault>
        ensures { result ≡ room_answer end (ways self.now) };

    ghost sound: { (s : Self) → Sound (ways s) };
}

// A route that can be made to lose a message.
pub trait BenchRoute: Route {
    // Removes the message at a position toward an end, 0 being the oldest.
    fn lose(&mut self, end: u32, position: u32) -> Result<(), Fault>
        ensures answer { result ≡ lose_answer end position (Self.Route.ways self.old) }
        ensures after { Self.Route.ways self.new ≡ lose_after end position (Self.Route.ways self.old) };
}
