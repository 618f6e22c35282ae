// A ring.
ghost use Rattle.std.specs.Prelude.{◌≡◌, ℕ, ◌+◌, ◌/◌, ◌<◌, ◌≤◌, ◌↔◌, [], ◌∷◌, ◌++◌, length, IsOk, IfOk, IsErrOf, vec_len};
ghost use Rattle.message.specs.declared.fault.Refusal.TheVariants.{MemorySize};
ghost use Rattle.route.specs.Ends.{end_number};
ghost use Rattle.route.specs.Queues.{queue, with_queue};
ghost use Rattle.route.specs.Stored.{message_of};
ghost use Rattle.route.specs.Ways.{empty_ways, without};
ghost use Rattle.ring.specs.Rounds.{wrap, place, turns_of};

use crate::turns::Turns;
use message::fault::{Fault, Refusal};
use route::{End, Queues, Slot};

// Slots that are used in turn: the even ones for end 0, the odd ones for end 1. The capacity is half of the slots, rounded
// down, and kept beside them, for every place is reckoned by it.
#[derive(Drop)]
pub struct Ring {
    slots: Vec<Slot>,
    capacity: usize,
    ends: [Turns; 2],
    ghost some: { 0 < capacity },
    ghost halves: { capacity + capacity ≤ vec_len slots },
    ghost inside: { (e : ℕ) → e < 2 → (turns_of ends e).oldest < capacity },
    ghost within: { (e : ℕ) → e < 2 → (turns_of ends e).count ≤ capacity },
}

impl Ring {
    ghost use Rattle.ring.specs.Turns.{ring_ways};

    // An empty ring. Half of the slots, rounded down, is the capacity toward each end.
    pub fn new(slots: Vec<Slot>) -> Result<Ring, Fault>
        ensures made { IsOk result ↔ (2 ≤ vec_len slots) }
        ensures empty { IfOk result (λ ring. ring_ways ring ≡ empty_ways (vec_len slots / 2)) }
        ensures refused { IsErrOf result (record { refusal = MemorySize; place = 0 }) ↔ (vec_len slots < 2) }
    {
        let capacity = slots.len() / 2;
        if capacity == 0 {
            return Err(Refusal::MemorySize.at(0));
        }
        Ok(Ring {
            slots,
            capacity,
            ends: [Turns::default(); 2],
        })
    }

    fn turns(&self, end: End) -> Turns
        ensures { result ≡ turns_of self.now.ends (end_number end) }
    {
        self.ends[end.index()]
    }

    // How many messages wait toward an end. COUNT alone asks `waiting`, so that an edit there turns no other call.
    #[tactic(auto, using(crate::proofs::Writes::counted))]
    fn queued(&self, end: End) -> usize
        ensures { result ≡ length (queue end (ring_ways self.now)) }
    {
        self.turns(end).count
    }

    // A place in the round of an end's slots, which begins again behind its last place.
    fn wrapped(&self, at: usize) -> usize
        requires { at < self.now.capacity + self.now.capacity }
        ensures value { result ≡ wrap self.now.capacity at }
        ensures below { result < self.now.capacity }
    {
        if at < self.capacity {
            at
        } else {
            at - self.capacity
        }
    }

    // The slot of a turn toward an end, 0 being the oldest message's.
    fn place(&self, end: End, turn: usize) -> usize
        requires { turn < self.now.capacity }
        ensures value { let e = end_number end in
            result ≡ place e self.now.capacity (turns_of self.now.ends e).oldest turn }
        ensures below { result < vec_len self.now.slots }
    {
        let at = self.turns(end).oldest + turn;
        2 * self.wrapped(at) + end.index()
    }

    // Closes the gap that a message leaves, from the side where fewer messages move: none at the oldest, and none at the newest.
    fn close_gap(&mut self, end: End, position: usize)
        requires { position < length (queue end (ring_ways self.old)) }
        ensures { ring_ways self.new ≡ with_queue end (without position) (ring_ways self.old) }
    {
        if position < self.queued(end) - position {
            self.move_behind(end, position);
        } else {
            self.move_ahead(end, position);
        }
    }

    // Moves the messages ahead of a position one turn behind, over the message that stands there.
    fn move_behind(&mut self, end: End, position: usize)
        requires { position < length (queue end (ring_ways self.old)) }
        ensures { ring_ways self.new ≡ with_queue end (without position) (ring_ways self.old) }
    {
        for turn in (0..position).rev() {
            let from = self.place(end, turn);
            let to = self.place(end, turn + 1);
            let slot = self.slots[from];
            self.slots[to] = slot;
        }
        let Turns { oldest, count } = self.turns(end);
        let oldest = self.wrapped(oldest + 1);
        self.ends[end.index()] = Turns {
            oldest,
            count: count - 1,
        };
    }

    // Moves the messages behind a position one turn ahead, over the message that stands there.
    fn move_ahead(&mut self, end: End, position: usize)
        requires { position < length (queue end (ring_ways self.old)) }
        ensures { ring_ways self.new ≡ with_queue end (without position) (ring_ways self.old) }
    {
        let Turns { oldest, count } = self.turns(end);
        for turn in position..count - 1 {
            let from = self.place(end, turn + 1);
            let to = self.place(end, turn);
            let slot = self.slots[from];
            self.slots[to] = slot;
        }
        self.ends[end.index()] = Turns {
            oldest,
            count: count - 1,
        };
    }
}

impl Queues for Ring {
    ghost use Rattle.ring.specs.Turns.{ring_ways};
    ghost use Rattle.ring.specs.Sound.{ring_sound};

    ghost ways = { ring_ways };

    ghost sound = { ring_sound };

    #[tactic(auto, using(crate::proofs::Writes::counted))]
    fn waiting(&self, end: End) -> usize {
        let Turns { count, .. } = self.turns(end);
        count
    }

    #[tactic(auto, using(crate::proofs::Writes::counted))]
    fn spare(&self, end: End) -> usize {
        self.capacity - self.queued(end)
    }

    fn push(&mut self, end: End, slot: Slot) -> Result<(), Slot> {
        let count = self.queued(end);
        if count >= self.capacity {
            return Err(slot);
        }
        let at = self.place(end, count);
        self.slots[at] = slot;
        self.ends[end.index()].count = count + 1;
        Ok(())
    }

    fn remove(&mut self, end: End, position: usize) -> Option<Slot> {
        let count = self.queued(end);
        if position >= count {
            return None;
        }
        let at = self.place(end, position);
        let slot = self.slots[at];
        self.close_gap(end, position);
        Some(slot)
    }
}
