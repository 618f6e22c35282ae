// What keeps messages in slots, toward each end in the order in which they came.
ghost use Rattle.std.specs.Prelude.{◌≡◌, ◌-◌, ◌≤◌, ◌↔◌, [], ◌∷◌, ◌++◌, length, slice_index_or, IsErr, IfErr, OnErr, OnOk, IsNone, IfNone, IfSome, OnSome};
ghost use Rattle.route.specs.Ways.{Ways, Sound, without};
ghost use Rattle.route.specs.Queues.{queue, with_queue};
ghost use Rattle.route.specs.Stored.{message_of};

use crate::end::End;
use crate::slot::Slot;

// What has queues is a route: the calls of a route are checked once, for all queues.
pub trait Queues {
    ghost ways: { Self → Ways };

    // How many messages wait toward an end.
    fn waiting(&self, end: End) -> usize
        ensures { result ≡ length (queue end (ways self.now)) };

    // How many more can wait there.
    fn spare(&self, end: End) -> usize
        ensures { result ≡ (ways self.now).capacity - length (queue end (ways self.now)) };

    // Adds a message behind those toward an end, or gives its slot back where there is no room.
    fn push(&mut self, end: End, slot: Slot) -> Result<(), Slot>
        ensures full { IsErr result ↔ ((ways self.old).capacity ≤ length (queue end (ways self.old))) }
        ensures back { IfErr result (λ given. given ≡ slot) }
        ensures same { OnErr result (ways self.new ≡ ways self.old) }
        ensures added { OnOk result (ways self.new ≡ with_queue end (λ q. q ++ message_of slot ∷ []) (ways self.old)) };

    // Removes the message at a position toward an end, 0 being the oldest, if one stands there.
    fn remove(&mut self, end: End, position: usize) -> Option<Slot>
        ensures none { IsNone result ↔ (length (queue end (ways self.old)) ≤ position) }
        ensures same { IfNone result (ways self.new ≡ ways self.old) }
        ensures message { IfSome result (λ slot. message_of slot ≡ slice_index_or (queue end (ways self.old)) position []) }
        ensures rest { OnSome result (ways self.new ≡ with_queue end (without position) (ways self.old)) };

    ghost sound: { (s : Self) → Sound (ways s) };
}
