// A pile.
ghost use Rattle.std.specs.Prelude.{◌≡◌, ℕ, ◌/◌, ◌<◌, ◌≤◌, ◌↔◌, [], ◌∷◌, ◌++◌, length, IsOk, IfOk, IsErrOf, vec_len};
ghost use Rattle.message.specs.declared.fault.Refusal.TheVariants.{MemorySize};
ghost use Rattle.route.specs.Queues.{queue, with_queue};
ghost use Rattle.route.specs.Stored.{message_of};
ghost use Rattle.route.specs.Ways.{empty_ways, without};
ghost use Rattle.pile.specs.Numbers.{waiting, Numbered};

use crate::records::{Record, Waiting};
use crate::upkeep::{clear, count_toward, free_place, move_up, slot_numbered};
use message::fault::{Fault, Refusal};
use route::{End, Queues, Slot};

// One record for each end.
const FEWEST_RECORDS: usize = 2;

// Records in no particular order, for a pile is to show that order is a matter of numbers alone. Half of them, rounded down, is the capacity for each end.
#[derive(Drop)]
pub struct Pile {
    records: Vec<Record>,
    ghost some: { 2 ≤ vec_len records },
    ghost within: { ((e : ℕ) → waiting e records.items ≤ vec_len records / 2) },
    ghost numbered: { Numbered records.items },
}

impl Pile {
    ghost use Rattle.pile.specs.Held.{pile_ways};

    // An empty pile in at least two records, which it makes free.
    pub fn new(mut records: Vec<Record>) -> Result<Pile, Fault>
        ensures made { IsOk result ↔ (2 ≤ vec_len records) }
        ensures empty { IfOk result (λ pile. pile_ways pile ≡ empty_ways (vec_len records / 2)) }
        ensures refused { IsErrOf result (record { refusal = MemorySize; place = 0 }) ↔ (vec_len records < 2) }
    {
        if records.len() < FEWEST_RECORDS {
            return Err(Refusal::MemorySize.at(0));
        }
        clear(&mut records);
        Ok(Pile { records })
    }

    // How many messages wait toward an end: all records are looked at, so a call asks once. COUNT alone asks `waiting`, so that an
    // edit there turns no other call.
    fn queued(&self, end: End) -> usize
        ensures { result ≡ length (queue end (pile_ways self.now)) }
    {
        count_toward(&self.records, end)
    }

    // The message at a position toward an end goes: those behind it move up.
    fn close_gap(&mut self, end: End, position: usize)
        requires { position < length (queue end (pile_ways self.old)) }
        ensures { pile_ways self.new ≡ with_queue end (without position) (pile_ways self.old) }
    {
        move_up(&mut self.records, end, position);
    }
}

impl Queues for Pile {
    ghost use Rattle.pile.specs.Held.{pile_ways};
    ghost use Rattle.pile.specs.Sound.{pile_sound};

    ghost ways = { pile_ways };

    ghost sound = { pile_sound };

    fn waiting(&self, end: End) -> usize {
        self.queued(end)
    }

    #[tactic(auto, using(crate::proofs::Means::fits))]
    fn spare(&self, end: End) -> usize {
        self.records.len() / 2 - self.queued(end)
    }

    fn push(&mut self, end: End, slot: Slot) -> Result<(), Slot> {
        let number = self.queued(end);
        if number >= self.records.len() / 2 {
            return Err(slot);
        }
        let Some(place) = free_place(&self.records) else {
            unreachable!()
        };
        self.records[place] = Record {
            tag: Some(Waiting { end, number }),
            slot,
        };
        Ok(())
    }

    fn remove(&mut self, end: End, position: usize) -> Option<Slot> {
        let slot = slot_numbered(&self.records, end, position)?;
        self.close_gap(end, position);
        Some(slot)
    }
}
