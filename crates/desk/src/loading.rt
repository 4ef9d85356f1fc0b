// Document 01, "Order forms and the lap": loading.
ghost use Rattle.std.specs.Prelude.{◌≡◌, true, ◌<◌};
ghost use Rattle.table.specs.Network.{rows, shape};
ghost use Rattle.table.specs.Calls.{net_after_write};
ghost use Rattle.orders.specs.Check.{verdict};
ghost use Rattle.desk.specs.Load.{loaded_row, loading, net_after_load};

use orders::check::{Bad, check};
use orders::form::{LONG, RECEIVE, flags_at, id_at, records};
use table::calls::{fresh, write_on};

// The registers that are written.
// Kept: a register is its number in the data sheet, as write_on takes it (decision 177).
const COMMAND: usize = 1;

const CONFIGURATION: usize = 6;

const SEVENTH: usize = 7;

// Off line, with the node ID as register 7; and on line.
const NODE_ID: u8 = 0x19;

const ON_LINE: u8 = 0x38;

// Long packets; receive in page 0, broadcasts too.
const LONG_PACKETS: u8 = 0x0d;

const ENABLE_RECEIVE: u8 = 0x84;

// A register is written. None of the writes below refuses a row that was reset (Loaded.never_refused), so the answer is not
// asked.
// Kept: SHAPE is asked of the lent bytes, here and below, as `write_on` asks it.
fn set(net: &mut [u8], k: usize, register: usize, value: u8)
    requires shaped { shape net.old ≡ true }
    requires row { k < rows net.old }
    ensures { net.new ≡ net_after_write net.old k register value }
{
    let _ = write_on(net, k, register, value);
}

// A row's registers are written, in 01's order.
#[tactic(auto, using(table::proofs::Access::ShapeCalls::shape_write, crate::proofs::Loads::LoadSteps::rows_write), unfolding(crate::specs::Load::loaded_row))]
fn load_row(net: &mut [u8], k: usize, id: u8, flags: u8)
    requires shaped { shape net.old ≡ true }
    requires row { k < rows net.old }
    ensures { net.new ≡ loaded_row net.old k id flags }
{
    set(net, k, CONFIGURATION, NODE_ID);
    set(net, k, SEVENTH, id);
    if flags & LONG != 0 {
        set(net, k, COMMAND, LONG_PACKETS);
    }
    if flags & RECEIVE != 0 {
        set(net, k, COMMAND, ENABLE_RECEIVE);
    }
    set(net, k, CONFIGURATION, ON_LINE);
}

// The network is made anew from the order, a row for each record: row k carries record k's ID.
pub fn load(order: &[u8], net: &mut [u8]) -> Result<(), Bad>
    ensures told { verdict result ≡ loading order.now net.old }
    ensures bytes { net.new ≡ net_after_load order.now net.old }
{
    check(order)?;
    let n = records(order);
    fresh(net, n)?;
    // Kept: k is the number of the record and of its row.
    for k in 0..n {
        load_row(net, k, id_at(order, k), flags_at(order, k));
    }
    Ok(())
}
