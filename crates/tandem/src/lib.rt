// Two routes in a row, which are a route again.
#![tactic(auto)]

ghost use Rattle.std.specs.Prelude.{◌≡◌};
ghost use Rattle.route.specs.Ways.{joined};
ghost use Rattle.tandem.specs.Rooms.{RoomMade};
ghost use Rattle.tandem.specs.Sound.{sound_joined};

use message::fault::{Fault, Refusal};
use message::kind;
use route::checks::{check_buffer, check_length};
use route::{BenchRoute, End, Route};

// Messages go into the first, move on to the second, and are taken from there: the second's are the older ones.
#[derive(Drop)]
pub struct Tandem<A, B> {
    first: A,
    second: B,
}

impl<A, B> Tandem<A, B> {
    pub fn new(first: A, second: B) -> Self
        ensures first { result.first ≡ first }
        ensures second { result.second ≡ second }
    {
        Tandem { first, second }
    }
}

impl<A: Route, B: Route> Tandem<A, B> {
    // Sees that the first has room: where it is full and the second is not, its oldest message moves on.
    #[tactic(auto, using(crate::proofs::Rows::room_first, crate::proofs::Rows::room_none))]
    fn make_room(&mut self, end: u32) -> Result<(), Fault>
        ensures { RoomMade end result
            (A.Route.ways self.old.first) (B.Route.ways self.old.second)
            (A.Route.ways self.new.first) (B.Route.ways self.new.second) }
    {
        if self.first.room(end)? > 0 {
            return Ok(());
        }
        if self.second.room(end)? == 0 {
            return Err(Refusal::WayFull.at(0));
        }
        let mut buffer = [0u8; kind::LARGEST_MESSAGE];
        let size = self.first.take(end, &mut buffer)?;
        self.second.put(end, &buffer[0..size])
    }
}

impl<A: Route, B: Route> Route for Tandem<A, B> {
    ghost ways = { λ t. joined (A.Route.ways t.first) (B.Route.ways t.second) };

    ghost sound = { λ s. sound_joined (A.Route.ways s.first) (B.Route.ways s.second) (A.Route.sound s.first) (B.Route.sound s.second) };

    #[tactic(auto, using(crate::proofs::Rows::put_first))]
    fn put(&mut self, end: u32, message: &[u8]) -> Result<(), Fault> {
        End::try_from(end)?;
        check_length(message)?;
        self.make_room(end)?;
        self.first.put(end, message)
    }

    #[tactic(auto, using(crate::proofs::Rows::take_first, crate::proofs::Rows::take_second))]
    fn take(&mut self, end: u32, buffer: &mut [u8]) -> Result<usize, Fault> {
        check_buffer(buffer)?;
        if self.second.count(end)? == 0 {
            self.first.take(end, buffer)
        } else {
            self.second.take(end, buffer)
        }
    }

    #[tactic(auto, using(crate::proofs::Rows::count_joined))]
    fn count(&self, end: u32) -> Result<u32, Fault> {
        let newer = self.first.count(end)?;
        let older = self.second.count(end)?;
        Ok(newer.saturating_add(older))
    }

    // Like `count` but for the numbers: all that one function for both could share is `saturating_add`.
    #[tactic(auto, using(crate::proofs::Rows::room_joined))]
    fn room(&self, end: u32) -> Result<u32, Fault> {
        let first = self.first.room(end)?;
        let second = self.second.room(end)?;
        Ok(first.saturating_add(second))
    }
}

impl<A: BenchRoute, B: BenchRoute> BenchRoute for Tandem<A, B> {
    #[tactic(auto, using(crate::proofs::Rows::lose_first, crate::proofs::Rows::lose_second))]
    fn lose(&mut self, end: u32, position: u32) -> Result<(), Fault> {
        let older = self.second.count(end)?;
        if self.second.lose(end, position).is_ok() {
            return Ok(());
        }
        // The end is right, so what the second lacks is a message at this position.
        self.first.lose(end, position - older)
    }
}
