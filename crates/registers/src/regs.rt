// Document 01, "The saved network" and "Registers": the registers of a card by value, awake and on line, the
// hardware reset and the interrupt. Each method hands the registers back.
ghost use Rattle.std.specs.Prelude.{◌≡◌};
ghost use Rattle.registers.specs.Fit.{awake, on_line, fit};
ghost use Rattle.registers.specs.Registers.{hardware_reset, interrupt};

use bits::flags::{
    DIAGNOSTIC, EXCNAK, LOW2, MASK, MODE, POR, RECON, RESET, RI, SETUP, STATUS, TA, TXEN,
};
use bits::way::Way;
use queues::queues::Queue;

// "status 91 hex", after a reset of either kind.
pub(crate) const AFTER_RESET: u8 = RI | POR | TA;

// Bytes 32 to 34 of a row: the byte that register 4 reads (C-13), and the count of NAKs (C-16).
#[derive(Clone, Copy, Debug, Default, PartialEq, Eq)]
pub struct Later {
    pub fetched: u8,
    pub naklow: u8,
    pub nakhigh: u8,
}

// Bytes 2 to 19 and 32 to 34 of a row; a queue has three of them.
#[derive(Clone, Copy, Debug, PartialEq, Eq)]
pub struct Regs {
    pub id: u8,
    pub status: u8,
    pub diagnostic: u8,
    pub mask: u8,
    pub configuration: u8,
    pub setup: u8,
    pub tentative: u8,
    pub nid: u8,
    pub high: u8,
    pub low: u8,
    pub mode: u8,
    pub transmit: Queue,
    pub receive: Queue,
    pub long: u8,
    pub later: Later,
}

impl Regs {
    // The ID is not 0 and RESET is clear.
    #[tactic(auto, unfolding(crate::specs::Fit::awake))]
    pub(crate) fn awake(self) -> bool
        ensures { result ≡ awake self }
    {
        (self.id != 0) & (self.configuration & RESET == 0)
    }

    // Awake, and TXEN is set.
    #[tactic(auto, unfolding(crate::specs::Fit::on_line))]
    pub fn on_line(self) -> bool
        ensures { result ≡ on_line self }
    {
        self.awake() & (self.configuration & TXEN != 0)
    }

    // No unnamed bit is set, and the bytes agree with each other.
    #[tactic(auto, unfolding(crate::specs::Fit::fit))]
    pub fn fit(self) -> bool
        ensures { result ≡ fit self }
    {
        let named = (self.status & !STATUS == 0)
            & (self.diagnostic & !DIAGNOSTIC == 0)
            & (self.mask & !MASK == 0)
            & (self.setup & !SETUP == 0)
            & (self.high & !LOW2 == 0)
            & (self.mode & !MODE == 0)
            & (self.long & !1 == 0);
        named & self.naks_fit() & self.side_fits(Way::Transmit) & self.side_fits(Way::Receive)
    }

    #[tactic(auto, unfolding(crate::specs::Registers::hardware_reset))]
    pub fn hardware_reset() -> Regs
        ensures { result ≡ hardware_reset }
    {
        Regs {
            id: 0,
            status: AFTER_RESET,
            diagnostic: 0,
            mask: 0,
            configuration: 0x18,
            setup: 0,
            tentative: 0,
            nid: 0,
            high: 0,
            low: 0,
            mode: 0,
            transmit: Queue::none(),
            receive: Queue::none(),
            long: 0,
            later: Later::default(),
        }
    }

    #[tactic(auto, unfolding(crate::specs::Registers::interrupt))]
    pub fn interrupt(self) -> bool
        ensures { result ≡ interrupt self }
    {
        let (received, sent) = if self.chaining() {
            (self.receive.uncleared(), self.transmit.uncleared())
        } else {
            (self.status & RI != 0, self.status & TA != 0)
        };
        (self.status & POR != 0)
            | received & (self.mask & RI != 0)
            | (self.status & RECON != 0) & (self.mask & RECON != 0)
            | sent & (self.mask & TA != 0)
            | (self.diagnostic & EXCNAK != 0) & (self.mask & EXCNAK != 0)
    }
}
