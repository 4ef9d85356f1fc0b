// A table of the rows, for a person. Where a write fails, its error is handed back, and the table ends there.
ghost use Rattle.std.specs.Prelude.{◌≡◌, true};
ghost use Rattle.table.specs.Network.{shape};

use bits::flags::{BROADCASTS, POR, RECON, RI, TA, TMA};
use bits::way::Way;
use print::gather::Output;
use registers::regs::Regs;
use std::io;
use table::network::{LOST, PASS, phase, rows};
use table::walk::Rows;

// The names of the flags that are set. TTA and TRI are a chaining row's: in another no end waits to be cleared.
fn flags<P: Print>(out: &mut Output<P>, g: Regs) -> io::Result<()> {
    let flags = [
        (g.status & RI != 0, " RI"),
        (g.status & POR != 0, " POR"),
        (g.status & RECON != 0, " RECON"),
        (g.status & TMA != 0, " TMA"),
        (g.status & TA != 0, " TA"),
        (g.transmit.uncleared(), " TTA"),
        (g.receive.uncleared(), " TRI"),
    ];
    for (set, name) in flags {
        if set {
            out.text(name.as_bytes())?;
        }
    }
    Ok(())
}

// The digit of a page, in the low bits of a waiting entry.
fn page(entry: u8) -> u8 {
    b'0' + entry % 4
}

// The columns LINE and TX, and RX up to its first page: on or off line, and the pages that wait, oldest first.
fn cells(g: Regs) -> [u8; 14] {
    let mut cells = *b"  OFF   -    -";
    if g.on_line() {
        cells[3] = b'N';
        cells[4] = b' ';
    }
    if g.waiting(Way::Transmit) {
        cells[8] = page(g.transmit.oldest);
    }
    if g.transmit.two(Way::Transmit) {
        cells[9] = b',';
        cells[10] = page(g.transmit.second);
    }
    if g.waiting(Way::Receive) {
        cells[13] = page(g.receive.oldest);
    }
    cells
}

// B behind a page that waits to be filled, where broadcasts are wanted.
fn wanted<P: Print>(out: &mut Output<P>, entry: u8) -> io::Result<()> {
    if entry & BROADCASTS == 0 {
        return Ok(());
    }
    out.text(b"B")
}

// The rest of the column RX: a second page behind the first.
fn receives<P: Print>(out: &mut Output<P>, g: Regs) -> io::Result<()> {
    if !g.receive.two(Way::Receive) {
        let broadcasts = g.receive.oldest & BROADCASTS != 0;
        return out.text(if broadcasts { b"B " } else { b"  " });
    }
    wanted(out, g.receive.oldest)?;
    out.text(&[b',', page(g.receive.second)])?;
    wanted(out, g.receive.second)
}

fn row<P: Print>(out: &mut Output<P>, k: usize, g: Regs) -> io::Result<()> {
    out.columns(k, usize::from(g.id), usize::from(g.nid))?;
    out.text(&cells(g))?;
    receives(out, g)?;
    flags(out, g)?;
    out.end()
}

// The phase, and who holds the token in it.
// Kept: a phase is a byte, as `table::network::phase` gives it.
fn holder<P: Print>(out: &mut Output<P>, phase: u8, row: usize) -> io::Result<()> {
    match phase {
        LOST => return out.text(b"LOST, nobody"),
        PASS => out.text(b"PASS, row")?,
        _ => out.text(b"TAKEN, row")?,
    }
    out.number(row)
}

// The rows of a network that SHAPE does not refuse.
pub fn show<P: Print>(out: &mut Output<P>, net: &[u8]) -> io::Result<()>
    requires { shape net.now ≡ true }
{
    out.begin();
    out.text(b" ROW  ID NID  LINE  TX   RX  FLAGS")?;
    out.end()?;
    for (k, card) in Rows::first(net, rows(net)).enumerate() {
        row(out, k, card::row::load(card))?;
    }
    holder(out, phase(net), table::network::holder(net))?;
    out.text(b" holds\nDONE")?;
    out.end()
}
