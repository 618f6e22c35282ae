// The records of a pile.
ghost use Rattle.std.specs.Prelude.{◌≡◌};
ghost use Rattle.route.specs.Ends.{end_number};

use route::{End, Slot};

// A message waits toward an end. Its queue number tells the order there: 0 is the oldest.
#[derive(Clone, Copy, PartialEq, Eq)]
pub struct Waiting {
    pub(crate) end: End,
    pub(crate) number: usize,
}

// Room for one message, and what waits in it: nothing where the record is free.
#[derive(Clone, Copy)]
pub struct Record {
    pub(crate) tag: Option<Waiting>,
    pub(crate) slot: Slot,
}

impl Record {
    ghost use Rattle.pile.specs.Numbers.{is_free, toward_end, waits, with_moved_up};

    // A record that is not in use yet.
    pub fn unused() -> Record
        ensures { result.tag ≡ None }
    {
        Record {
            tag: None,
            slot: Slot::unused(),
        }
    }

    pub(crate) fn is_free(&self) -> bool
        ensures { result ≡ is_free self.now.tag }
    {
        self.tag.is_none()
    }

    // It holds a message toward an end.
    pub(crate) fn is_toward(&self, end: End) -> bool
        ensures { result ≡ toward_end (end_number end) self.now.tag }
    {
        matches!(self.tag, Some(Waiting { end: to, .. }) if to == end)
    }

    // It holds the message with a queue number toward an end.
    pub(crate) fn is_numbered(&self, end: End, number: usize) -> bool
        ensures { result ≡ waits (end_number end) number self.now.tag }
    {
        self.tag == Some(Waiting { end, number })
    }

    // The message with a queue number toward an end goes: its own record is free, and those behind it move up.
    pub(crate) fn move_up(&mut self, end: End, gone: usize)
        ensures { self.new ≡ with_moved_up (end_number end) gone self.old }
    {
        if let Some(waiting) = self.tag
            && waiting.end == end
            && waiting.number >= gone
        {
            self.tag = if waiting.number == gone {
                None
            } else {
                Some(Waiting {
                    end,
                    number: waiting.number - 1,
                })
            };
        }
    }
}
