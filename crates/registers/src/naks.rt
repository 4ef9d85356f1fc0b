// C-16, "Who refused": the NAKs to one Enable, which the sender counts, and EXCNAK.
ghost use Rattle.std.specs.Prelude.{◌≡◌};
ghost use Rattle.bits.specs.Words.{all};
ghost use Rattle.registers.specs.Naks.{low_first, up_to_limit, nak_counted, naks_dropped, nak_rules};

use crate::regs::{Later, Regs};
use bits::flags::{EXCNAK, TA};

// How many NAKs are too many (000, diagnostic status).
const NAK_LIMIT: u8 = 128;

fn up_to_limit(naks: usize) -> u8
    ensures { result ≡ up_to_limit naks }
{
    naks.min(NAK_LIMIT as usize) as u8
}

impl Later {
    // Bytes 33 and 34, the low byte first.
    fn naks(self) -> usize
        ensures { result ≡ low_first self.naklow self.nakhigh }
    {
        usize::from(u16::from_le_bytes([self.naklow, self.nakhigh]))
    }

    // A count that one byte holds.
    pub(crate) fn counting(self, naks: u8) -> Later
        ensures { result ≡ record { fetched = self.fetched; naklow = naks; nakhigh = 0 } }
    {
        Later {
            naklow: naks,
            nakhigh: 0,
            ..self
        }
    }
}

impl Regs {
    // A NAK more; the count stays at the limit, where EXCNAK is set.
    pub(crate) fn nak_counted(mut self) -> Regs
        ensures { result ≡ nak_counted self }
    {
        let naks = up_to_limit(self.later.naks() + 1);
        if naks == NAK_LIMIT {
            self.diagnostic |= EXCNAK;
        }
        self.later = self.later.counting(naks);
        self
    }

    // Where `drop`, nothing is counted any more, and EXCNAK is clear.
    pub(crate) fn naks_dropped(mut self, drop: bool) -> Regs
        ensures { result ≡ naks_dropped drop self }
    {
        if drop {
            self.diagnostic &= !EXCNAK;
            self.later = self.later.counting(0);
        }
        self
    }

    // The count agrees with TA and with EXCNAK.
    pub(crate) fn naks_fit(self) -> bool
        ensures { result ≡ all (nak_rules self) }
    {
        let naks = self.later.naks();
        let limit = NAK_LIMIT as usize;
        (naks <= limit)
            & ((naks == 0) | (self.status & TA == 0))
            & ((naks == limit) == (self.diagnostic & EXCNAK != 0))
    }
}
