// C-11, "well-formedness gains their rules": the bytes of a side agree with each other.
ghost use Rattle.std.specs.Prelude.{◌≡◌};
ghost use Rattle.queues.specs.Queues.{counted, sound, fit};
ghost use Rattle.bits.specs.Flags.{oldest_bits};

use crate::queues::{KEPT, Side, second_flag};
use bits::flags::{BROADCASTS, CANCEL, LOW2, TA, TMA};
use bits::way::Way;

// The bits that have a name.
fn oldest_bits(way: Way) -> u8
    ensures { result ≡ oldest_bits way }
{
    match way {
        Way::Transmit => CANCEL | LOW2,
        Way::Receive => CANCEL | BROADCASTS | LOW2,
    }
}

// At most two ends are not cleared; TMA is stored of the second alone.
fn counted(way: Way, done: u8) -> bool
    ensures { result ≡ counted way done }
{
    match way {
        Way::Transmit => matches!(done, 0..=2) | (done == KEPT | 2),
        Way::Receive => matches!(done, 0..=2),
    }
}

impl Side {
    // TMA tells of an end: TA is 1, or TTA.
    fn sound(self, way: Way) -> bool
        ensures { result ≡ sound way self }
    {
        match way {
            Way::Transmit => {
                (self.status & TMA == 0) | (self.status & TA != 0) | self.queue.uncleared()
            }
            Way::Receive => true,
        }
    }

    #[tactic(auto, unfolding(crate::specs::Queues::fit))]
    pub fn fit(self, way: Way, chaining: bool, long: u8) -> bool
        ensures { result ≡ fit way chaining long self }
    {
        let q = self.queue;
        let bits = oldest_bits(way);
        let waiting = self.waiting(way);
        let short = long != 1;
        (q.oldest & !bits == 0)
            & (q.second & !(bits | second_flag(way)) == 0)
            & counted(way, q.done)
            & (waiting | (q.oldest == 0))
            & ((q.second == 0) | waiting & q.two(way))
            & (short | !waiting | (q.oldest & 1 == 0))
            & (short | (q.second & 1 == 0))
            & (chaining | (q.second == 0) & (q.done == 0))
            & self.sound(way)
    }
}
