// Document 01, "Registers": what reading and writing a register gives and leaves, register 4's pointer and, by C-13,
// its fetched byte, the software reset and the effects of the commands.
ghost use Rattle.std.specs.Prelude.{◌≡◌};
ghost use Rattle.registers.specs.Registers.{sub, pointer, stepped, read_fetches, write_fetches, fetched, seventh, shown, read_value, after_read, changes_chaining, rechained, configured, commanded, writes_id, seventh_written, after_write};

use crate::regs::{AFTER_RESET, Regs};
use bits::choice::choose;
use bits::flags::{
    AUTO_INC, CCHEN, EXCNAK, POR, RDDATA, RECON, RESET, RI, SHOWN_RI, SHOWN_TA, TA, TMA, TRI, TTA,
};
use commands::commands::{Command, decode};
use queues::queues::Queue;

impl Regs {
    // The RAM address that register 4 writes, and that is fetched.
    pub fn pointer(self) -> usize
        ensures { result ≡ pointer self }
    {
        usize::from(u16::from_be_bytes([self.high % 4, self.low]))
    }

    // The pointer after an access of register 4.
    #[tactic(auto, unfolding(crate::specs::Registers::stepped))]
    fn stepped(self) -> Regs
        ensures { result ≡ stepped self }
    {
        if self.mode & AUTO_INC == 0 {
            return self;
        }
        let [high, low] = (((self.pointer() + 1) % 1024) as u16).to_be_bytes();
        Regs { high, low, ..self }
    }

    // C-13: "Only a pointer load or an incremented read fetches", a write of 3 or a read of 4 with AUTO-INC.
    pub fn read_fetches(self, register: usize) -> bool
        ensures { result ≡ read_fetches self register }
    {
        (register == 4) & (self.mode & AUTO_INC != 0)
    }

    pub fn write_fetches(register: usize) -> bool
        ensures { result ≡ write_fetches register }
    {
        register == 3
    }

    // Where an access fetches, the fetched byte is `ram`, the RAM byte at the pointer that it leaves.
    pub fn fetched(mut self, fetches: bool, ram: u8) -> Regs
        ensures { result ≡ fetched fetches ram self }
    {
        if fetches {
            self.later.fetched = ram;
        }
        self
    }

    // What register 7 is, by sub-address: 00 tentative ID, 01 node ID, 10 setup.
    pub(crate) fn sub_address(self) -> u8
        ensures { result ≡ sub self }
    {
        self.configuration % 4
    }

    fn seventh(self) -> u8
        ensures { result ≡ seventh self }
    {
        match self.sub_address() {
            0 => self.tentative,
            1 => self.id,
            _ => self.setup,
        }
    }

    // The status as register 0 shows it.
    #[tactic(auto, unfolding(crate::specs::Registers::shown))]
    fn shown(self) -> u8
        ensures { result ≡ shown self }
    {
        if !self.chaining() {
            return self.status;
        }
        let mut flags = self.status & (POR | RECON | TMA);
        if self.transmit.uncleared() {
            flags |= TTA;
        }
        if self.status & TA != 0 {
            flags |= SHOWN_TA;
        }
        if self.status & RI != 0 {
            flags |= SHOWN_RI;
        }
        if self.receive.uncleared() {
            flags |= TRI;
        }
        flags
    }

    // What a read of a register gives.
    // Kept: a register is asked by its address in the data sheet (000, "Registers"), which is what every caller has:
    // here, below and in refusals.rt.
    #[tactic(auto, unfolding(crate::specs::Registers::read_value))]
    pub fn read_value(self, register: usize) -> u8
        ensures { result ≡ read_value self register }
    {
        match register {
            0 => self.shown(),
            1 => self.diagnostic,
            2 => self.mode & (RDDATA | AUTO_INC) | self.high % 4,
            3 => self.low,
            4 => self.later.fetched,
            6 => self.configuration,
            7 => self.seventh(),
            _ => 0,
        }
    }

    #[tactic(auto, unfolding(crate::specs::Registers::after_read))]
    pub fn after_read(self, register: usize) -> Regs
        ensures { result ≡ after_read self register }
    {
        match register {
            1 => Regs {
                diagnostic: self.diagnostic & EXCNAK,
                ..self
            },
            4 => self.stepped(),
            _ => self,
        }
    }

    pub(crate) fn changes_chaining(self, value: u8) -> bool
        ensures { result ≡ changes_chaining self value }
    {
        value & CCHEN != self.configuration & CCHEN
    }

    // A change of CCHEN drops the ends that are not cleared; nothing waits then.
    fn rechained(self, value: u8) -> Regs
        ensures { result ≡ rechained self value }
    {
        if self.changes_chaining(value) {
            return Regs {
                transmit: Queue::none(),
                receive: Queue::none(),
                ..self
            };
        }
        self
    }

    // The configuration is written; RESET = 1 is a software reset.
    #[tactic(auto, unfolding(crate::specs::Registers::configured))]
    fn configured(self, value: u8) -> Regs
        ensures { result ≡ configured self value }
    {
        if value & RESET == 0 {
            return Regs {
                configuration: value,
                ..self.rechained(value)
            };
        }
        Regs {
            configuration: value,
            status: AFTER_RESET,
            diagnostic: 0,
            mask: 0,
            transmit: Queue::none(),
            receive: Queue::none(),
            long: 0,
            later: self.later.counting(0),
            ..self
        }
    }

    // A command's effect; a byte that is no command has none.
    #[tactic(auto, unfolding(crate::specs::Registers::commanded))]
    fn commanded(self, command: Option<Command>) -> Regs
        ensures { result ≡ commanded self command }
    {
        match command {
            None => self,
            Some(Command::Disable(way)) => self.disabled(way),
            Some(Command::Enable(way, entry)) => self.enabled(way, entry),
            Some(Command::LongPackets(long)) => Regs { long, ..self },
            Some(Command::ClearFlags(por, recon)) => Regs {
                status: self.status & !choose(recon, RECON, 0) & !choose(por, POR, 0),
                ..self.naks_dropped(por)
            },
            Some(Command::Clear(way)) => self.cleared(way),
        }
    }

    // The register is the node ID.
    #[tactic(auto, unfolding(crate::specs::Registers::writes_id))]
    pub(crate) fn writes_id(self, register: usize) -> bool
        ensures { result ≡ writes_id self register }
    {
        (register == 7) & (self.sub_address() == 1)
    }

    #[tactic(auto, unfolding(crate::specs::Registers::seventh_written))]
    fn seventh_written(mut self, value: u8) -> Regs
        ensures { result ≡ seventh_written self value }
    {
        match self.sub_address() {
            0 => self.tentative = value,
            1 => self.id = value,
            _ => self.setup = value,
        }
        self
    }

    // The registers after a write that is not refused.
    #[tactic(auto, unfolding(crate::specs::Registers::after_write))]
    pub fn after_write(self, register: usize, value: u8) -> Regs
        ensures { result ≡ after_write self register value }
    {
        match register {
            0 => Regs {
                mask: value,
                ..self
            },
            1 => self.commanded(decode(value)),
            2 => Regs {
                mode: value,
                ..self
            },
            3 => Regs {
                high: self.mode % 4,
                low: value,
                ..self
            },
            4 => self.stepped(),
            6 => self.configured(value),
            7 => self.seventh_written(value),
            _ => self,
        }
    }
}
