// Document 01, "Numbers a caller may get": what a register access to one card is refused with.
ghost use Rattle.std.specs.Prelude.{◌≡◌, not, ◌||◌};
ghost use Rattle.bits.specs.declared.way.Way.TheVariants.{Transmit, Receive};
ghost use Rattle.commands.specs.Commands.{illegal};
ghost use Rattle.registers.specs.Events.{waits};
ghost use Rattle.registers.specs.Sides.{chaining};
ghost use Rattle.told.specs.Numbers.{told};
ghost use Rattle.told.specs.Refusals.{number};
ghost use Rattle.registers.specs.Refusals.{no_register, bad_value, busy, chain_busy, odd_page, read_refusals, write_refusals};

use crate::regs::Regs;
use bits::flags::{MASK, MODE, RDDATA, SETUP};
use bits::way::Way;
use commands::commands::{Command, decode};
use told::refusals::Refusal;

impl Regs {
    // REGISTER: no such register, or none at this sub-address.
    #[tactic(auto, unfolding(crate::specs::Refusals::no_register))]
    pub fn no_register(self, register: usize) -> bool
        ensures { result ≡ no_register self register }
    {
        // Kept: an address of the data sheet, here and below, as in access.rt.
        match register {
            0..=4 | 6 => false,
            7 => self.sub_address() == 3,
            _ => true,
        }
    }

    // A byte is a command of this card: the two of C-11 are a chaining card's alone.
    fn takes(self, command: Option<Command>) -> bool
        ensures { result ≡ not (illegal (chaining self) command) }
    {
        command.is_some_and(|command| !command.illegal(self.chaining()))
    }

    // VALUE: a bit that the register has no name for, or a byte that is no command.
    #[tactic(auto, unfolding(crate::specs::Refusals::bad_value))]
    fn bad_value(self, register: usize, value: u8) -> bool
        ensures { result ≡ bad_value self register value }
    {
        match register {
            0 => value & !MASK != 0,
            1 => !self.takes(decode(value)),
            2 => value & !MODE != 0,
            7 => (self.sub_address() == 2) & (value & !SETUP != 0),
            _ => false,
        }
    }

    // Something waits, on one side or the other.
    fn any_waiting(self) -> bool
        ensures { result ≡ waits Transmit self || waits Receive self }
    {
        self.waiting(Way::Transmit) | self.waiting(Way::Receive)
    }

    // BUSY: what the command would start or change is enabled already.
    #[tactic(auto, unfolding(crate::specs::Events::transmitting, crate::specs::Events::receiving))]
    fn busy(self, command: Option<Command>) -> bool
        ensures { result ≡ busy self command }
    {
        match command {
            Some(Command::Enable(way, _)) => self.full(way),
            Some(Command::LongPackets(_)) => self.any_waiting(),
            _ => false,
        }
    }

    // BUSY: CCHEN changes while something waits.
    #[tactic(auto, unfolding(crate::specs::Events::transmitting, crate::specs::Events::receiving))]
    fn chain_busy(self, value: u8) -> bool
        ensures { result ≡ chain_busy self value }
    {
        self.changes_chaining(value) & self.any_waiting()
    }

    // PAGE: an Enable of an odd page with long packets.
    fn odd_page(self, command: Option<Command>) -> bool
        ensures { result ≡ odd_page self command }
    {
        match command {
            Some(Command::Enable(_, entry)) => (entry & 1 != 0) & (self.long == 1),
            _ => false,
        }
    }

    // What a read of a register is refused with.
    #[tactic(auto, using(told::proofs::Told::Results::asking), unfolding(crate::specs::Refusals::read_refusals))]
    pub fn may_read(self, register: usize) -> Result<(), Refusal>
        ensures { number result ≡ told (read_refusals self register) }
    {
        Refusal::Register.when(self.no_register(register))?;
        Refusal::Direction.when((register == 4) & (self.mode & RDDATA == 0))
    }

    // What a write of a register is refused with.
    #[tactic(auto, using(told::proofs::Told::Results::asking), unfolding(crate::specs::Refusals::write_refusals))]
    pub fn may_write(self, register: usize, value: u8) -> Result<(), Refusal>
        ensures { number result ≡ told (write_refusals self register value) }
    {
        let command = decode(value);
        Refusal::Register.when(self.no_register(register))?;
        Refusal::Value.when(self.bad_value(register, value))?;
        Refusal::NotReady.when((register == 1) & !self.awake())?;
        Refusal::Direction.when((register == 4) & (self.mode & RDDATA != 0))?;
        let busy = (register == 1) & self.busy(command);
        Refusal::Busy.when(busy | (register == 6) & self.chain_busy(value))?;
        Refusal::Online.when(self.on_line() & self.writes_id(register))?;
        Refusal::Page.when((register == 1) & self.odd_page(command))
    }
}
