// C-11, "Two packets queued" (000, "COMMAND CHAINING"): a card has two sides, and one rule serves both.
ghost use Rattle.std.specs.Prelude.{◌≡◌};
ghost use Rattle.queues.specs.Queues.{none, free_flag, waiting, second_flag, two, full, uncleared, stored, shows, completed, cleared, lowered, enabled, disabled, gone, ended, second_cancelled, cancelled, fit};

use bits::flags::{CANCEL, LOW2, RI, TA, TMA};
use bits::way::Way;

// The TMA of an end that is stored behind the one shown.
pub(crate) const KEPT: u8 = 1 << 7;

// Bytes 13, 16 and 18 of a row, or 14, 17 and 19: the oldest that waits, the second, and how many ends are not cleared.
#[derive(Clone, Copy, Debug, Default, PartialEq, Eq)]
pub struct Queue {
    pub oldest: u8,
    pub second: u8,
    pub done: u8,
}

// A side of a card: its queue, and the status that it shares with the other side.
#[derive(Clone, Copy, Debug, PartialEq, Eq)]
pub struct Side {
    pub status: u8,
    pub queue: Queue,
}

// The flag that is 0 while one waits.
fn free_flag(way: Way) -> u8
    ensures { result ≡ free_flag way }
{
    match way {
        Way::Transmit => TA,
        Way::Receive => RI,
    }
}

// The bit of the second's byte that says that it waits.
pub(crate) fn second_flag(way: Way) -> u8
    ensures { result ≡ second_flag way }
{
    match way {
        Way::Transmit => 1 << 6,
        Way::Receive => 1 << 5,
    }
}

// What is stored of an end behind the one shown.
fn stored(way: Way, acknowledged: bool) -> u8
    ensures { result ≡ stored way acknowledged }
{
    match way {
        Way::Transmit if acknowledged => KEPT | 2,
        _ => 2,
    }
}

// The status with what an end shows in it.
fn shows(way: Way, acknowledged: bool, status: u8) -> u8
    ensures { result ≡ shows way acknowledged status }
{
    match (way, acknowledged) {
        (Way::Transmit, true) => status | TMA,
        (Way::Transmit, false) => status & !TMA,
        (Way::Receive, _) => status,
    }
}

impl Queue {
    // Nothing waits, and nothing is to be cleared.
    pub fn none() -> Queue
        ensures { result ≡ none }
    {
        Queue::default()
    }

    // A second waits.
    pub fn two(self, way: Way) -> bool
        ensures { result ≡ two way self }
    {
        self.second & second_flag(way) != 0
    }

    // TTA, or TRI: an end is not cleared yet.
    pub fn uncleared(self) -> bool
        ensures { result ≡ uncleared self }
    {
        self.done & LOW2 != 0
    }

    // The flags that an Enable sets to 0; TMA tells of an end until it is cleared.
    fn lowered(self, way: Way) -> u8
        ensures { result ≡ lowered way self }
    {
        match way {
            Way::Transmit if self.uncleared() => TA,
            Way::Transmit => TA | TMA,
            Way::Receive => RI,
        }
    }
}

// Kept: `way` and `chaining` come apart, as Queues.full, enabled, completed, ended and fit take them (OfQueues).
impl Side {
    // One waits.
    pub fn waiting(self, way: Way) -> bool
        ensures { result ≡ waiting way self }
    {
        self.status & free_flag(way) == 0
    }

    // BUSY: no more can wait.
    pub fn full(self, way: Way, chaining: bool) -> bool
        ensures { result ≡ full way chaining self }
    {
        if chaining {
            return self.queue.two(way);
        }
        self.waiting(way)
    }

    // An Enable with its page, and of a receive whether broadcasts are wanted.
    #[tactic(auto, unfolding(crate::specs::Queues::enabled))]
    pub fn enabled(mut self, way: Way, chaining: bool, entry: u8) -> Side
        ensures { result ≡ enabled way chaining entry self }
    {
        if chaining & self.waiting(way) {
            self.queue.second = entry | second_flag(way);
            return self;
        }
        self.status &= !self.queue.lowered(way);
        self.queue.oldest = entry;
        self
    }

    // A Disable marks the oldest that is not marked yet.
    #[tactic(auto, unfolding(crate::specs::Queues::disabled))]
    pub fn disabled(mut self, way: Way) -> Side
        ensures { result ≡ disabled way self }
    {
        if !self.waiting(way) {
            return self;
        }
        if self.queue.two(way) & (self.queue.oldest & CANCEL != 0) {
            self.queue.second |= CANCEL;
            return self;
        }
        self.queue.oldest |= CANCEL;
        self
    }

    // The oldest goes, and the second moves up with its mark.
    fn gone(mut self, way: Way) -> Side
        ensures { result ≡ gone way self }
    {
        if self.queue.two(way) {
            self.queue.oldest = self.queue.second & !second_flag(way);
            self.queue.second = 0;
            return self;
        }
        self.status |= free_flag(way);
        self.queue.oldest = 0;
        self
    }

    // An end shows in the status, or is stored behind one that does.
    fn completed(mut self, way: Way, chaining: bool, acknowledged: bool) -> Side
        ensures { result ≡ completed way chaining acknowledged self }
    {
        if chaining & self.queue.uncleared() {
            self.queue.done = stored(way, acknowledged);
            return self;
        }
        self.status = shows(way, acknowledged, self.status);
        if chaining {
            self.queue.done = 1;
        }
        self
    }

    // The oldest ends, acknowledged or not.
    #[tactic(auto, unfolding(crate::specs::Queues::ended))]
    pub fn ended(self, way: Way, chaining: bool, acknowledged: bool) -> Side
        ensures { result ≡ ended way chaining acknowledged self }
    {
        self.completed(way, chaining, acknowledged).gone(way)
    }

    fn second_cancelled(mut self) -> Side
        ensures { result ≡ second_cancelled self }
    {
        if self.queue.second & CANCEL != 0 {
            self.queue.second = 0;
        }
        self
    }

    // The cancels that were asked take effect; they are no ends.
    #[tactic(auto, unfolding(crate::specs::Queues::cancelled))]
    pub fn cancelled(self, way: Way) -> Side
        ensures { result ≡ cancelled way self }
    {
        let left = self.second_cancelled();
        if self.queue.oldest & CANCEL == 0 {
            return left;
        }
        left.gone(way)
    }

    // Clear Transmit Interrupt, or Clear Receive Interrupt: the end that is stored is shown, or none.
    #[tactic(auto, unfolding(crate::specs::Queues::cleared))]
    pub fn cleared(mut self, way: Way) -> Side
        ensures { result ≡ cleared way self }
    {
        if self.queue.uncleared() {
            self.status = shows(way, self.queue.done & KEPT != 0, self.status);
            self.queue.done = u8::from(self.queue.done & 2 != 0);
        }
        self
    }
}
