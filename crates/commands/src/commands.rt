// Document 01, "Twenty command bytes are legal, in hex", and the two of C-11.
ghost use Rattle.std.specs.Prelude.{◌≡◌, Some};
ghost use Rattle.commands.specs.Commands.{command_of, illegal};

use bits::flags::BROADCASTS;
use bits::way::Way;

// What a byte written to register 1 asks of the card. Pages are 0 to 3.
// Kept: the bytes of Enable and LongPackets are as a row has them (13, 14 and 15; Commands.command_of).
#[derive(Clone, Copy, Debug, PartialEq, Eq)]
pub enum Command {
    // Disable Transmitter, Disable Receiver.
    Disable(Way),
    // Enable Transmit and Enable Receive: the page, and of a receive the bit that wants broadcasts.
    Enable(Way, u8),
    LongPackets(u8),
    // Whether POR is cleared, and whether RECON is.
    ClearFlags(bool, bool),
    // Clear Transmit Interrupt and Clear Receive Interrupt, of a chaining row alone.
    Clear(Way),
}

// The legal bytes, and the command of each with its page.
const LEGAL: [(u8, Command); 22] = [
    (0x01, Command::Disable(Way::Transmit)),
    (0x02, Command::Disable(Way::Receive)),
    (0x03, Command::Enable(Way::Transmit, 0)),
    (0x0b, Command::Enable(Way::Transmit, 2)),
    (0x23, Command::Enable(Way::Transmit, 1)),
    (0x2b, Command::Enable(Way::Transmit, 3)),
    (0x04, Command::Enable(Way::Receive, 0)),
    (0x0c, Command::Enable(Way::Receive, 2)),
    (0x24, Command::Enable(Way::Receive, 1)),
    (0x2c, Command::Enable(Way::Receive, 3)),
    (0x84, Command::Enable(Way::Receive, BROADCASTS | 0)),
    (0x8c, Command::Enable(Way::Receive, BROADCASTS | 2)),
    (0xa4, Command::Enable(Way::Receive, BROADCASTS | 1)),
    (0xac, Command::Enable(Way::Receive, BROADCASTS | 3)),
    (0x05, Command::LongPackets(0)),
    (0x0d, Command::LongPackets(1)),
    (0x06, Command::ClearFlags(false, false)),
    (0x0e, Command::ClearFlags(true, false)),
    (0x16, Command::ClearFlags(false, true)),
    (0x1e, Command::ClearFlags(true, true)),
    (0x00, Command::Clear(Way::Transmit)),
    (0x08, Command::Clear(Way::Receive)),
];

// The command of a byte, where it is legal.
pub fn decode(byte: u8) -> Option<Command>
    ensures { result ≡ command_of byte }
{
    LEGAL
        .iter()
        .find(|legal| legal.0 == byte)
        .map(|legal| legal.1)
}

impl Command {
    // Of a chaining row alone.
    pub fn illegal(self, chaining: bool) -> bool
        ensures { result ≡ illegal chaining (Some self) }
    {
        matches!(self, Command::Clear(_)) & !chaining
    }
}
