// All records in turn.
ghost use Rattle.std.specs.Prelude.{◌≡◌, map, find, position, option_map};
ghost use Rattle.route.specs.Ends.{end_number};
ghost use Rattle.pile.specs.Numbers.{is_free, waits, waiting, with_moved_up, freed};

use crate::records::Record;
use route::{End, Slot};

// How many messages wait toward an end. A loop, since with a filter that is counted PUT on a full pile takes half as long again.
pub(crate) fn count_toward(records: &[Record], end: End) -> usize
    ensures { result ≡ waiting (end_number end) records.now }
{
    let mut count = 0;
    for record in records {
        if record.is_toward(end) {
            count += 1;
        }
    }
    count
}

// The slot of the message with a queue number toward an end, if one has it.
pub(crate) fn slot_numbered(records: &[Record], end: End, number: usize) -> Option<Slot>
    ensures { let numbered = find (λ r. waits (end_number end) number r.tag) records.now in
        result ≡ option_map (λ r. r.slot) numbered }
{
    records
        .iter()
        .find(|record| record.is_numbered(end, number))
        .map(|record| record.slot)
}

// The place of the first free record, if one is free.
pub(crate) fn free_place(records: &[Record]) -> Option<usize>
    ensures { result ≡ position (λ r. is_free r.tag) records.now }
{
    records.iter().position(|record| record.is_free())
}

// The message with a queue number toward an end goes: those behind it move up.
pub(crate) fn move_up(records: &mut [Record], end: End, gone: usize)
    ensures { records.new ≡ map (with_moved_up (end_number end) gone) records.old }
{
    for record in records.iter_mut() {
        record.move_up(end, gone);
    }
}

// Makes all records free. What stands in a free record's slot means nothing, and stays.
pub(crate) fn clear(records: &mut [Record])
    ensures { records.new ≡ map freed records.old }
{
    for record in records.iter_mut() {
        record.tag = None;
    }
}
