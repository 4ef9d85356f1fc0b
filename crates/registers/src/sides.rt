// C-11, "Two packets queued": a card's two sides, and what changes one of them.
ghost use Rattle.std.specs.Prelude.{◌≡◌};
ghost use Rattle.queues.specs.Queues as queues;
ghost use Rattle.queues.specs.declared.queues.Side.{Side};
ghost use Rattle.registers.specs.Sides.{chaining, side_of, with_side};

use crate::regs::Regs;
use bits::flags::CCHEN;
use bits::way::Way;
use queues::queues::Side;

impl Regs {
    // CCHEN is set.
    pub(crate) fn chaining(self) -> bool
        ensures { result ≡ chaining self }
    {
        self.configuration & CCHEN != 0
    }

    pub(crate) fn side(self, way: Way) -> Side
        ensures { result ≡ side_of way self }
    {
        Side {
            status: self.status,
            queue: match way {
                Way::Transmit => self.transmit,
                Way::Receive => self.receive,
            },
        }
    }

    // The card with a side as it has become.
    fn with_side(mut self, way: Way, side: Side) -> Regs
        ensures { result ≡ with_side way side self }
    {
        self.status = side.status;
        match way {
            Way::Transmit => self.transmit = side.queue,
            Way::Receive => self.receive = side.queue,
        }
        self
    }

    // The card with a side as f makes it of itself.
    fn on_side<F: FnOnce(Side) -> Side>(self, way: Way, f: F) -> Regs
        requires { F.IsAlwaysCallable f }
        ensures { (side : Side) × F.post f (side_of way self) side × (result ≡ with_side way side self) }
    {
        self.with_side(way, f(self.side(way)))
    }

    // Kept: a line each, here and below, since each contract names a definition of its own (Queues.enabled and so on).
    pub(crate) fn enabled(self, way: Way, entry: u8) -> Regs
        ensures { result ≡ with_side way (queues.enabled way (chaining self) entry (side_of way self)) self }
    {
        self.on_side(way, |side| side.enabled(way, self.chaining(), entry))
    }

    pub(crate) fn disabled(self, way: Way) -> Regs
        ensures { result ≡ with_side way (queues.disabled way (side_of way self)) self }
    {
        self.on_side(way, |side| side.disabled(way))
    }

    pub(crate) fn cleared(self, way: Way) -> Regs
        ensures { result ≡ with_side way (queues.cleared way (side_of way self)) self }
    {
        self.on_side(way, |side| side.cleared(way))
    }

    pub(crate) fn ended(self, way: Way, acknowledged: bool) -> Regs
        ensures { result ≡ with_side way (queues.ended way (chaining self) acknowledged (side_of way self)) self }
    {
        self.on_side(way, |side| side.ended(way, self.chaining(), acknowledged))
    }

    // The cancels that were asked on this side take effect.
    pub(crate) fn relieved(self, way: Way) -> Regs
        ensures { result ≡ with_side way (queues.cancelled way (side_of way self)) self }
    {
        self.on_side(way, |side| side.cancelled(way))
    }

    // BUSY: no more can wait on this side.
    pub(crate) fn full(self, way: Way) -> bool
        ensures { result ≡ queues.full way (chaining self) (side_of way self) }
    {
        self.side(way).full(way, self.chaining())
    }

    // No unnamed bit is set in this side's bytes, and they agree with each other.
    pub(crate) fn side_fits(self, way: Way) -> bool
        ensures { result ≡ queues.fit way (chaining self) self.long (side_of way self) }
    {
        self.side(way).fit(way, self.chaining(), self.long)
    }
}
