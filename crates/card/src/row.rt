// Document 01, "The saved network": a row's part of the lent network, 64 bytes of registers and then 1,024 of RAM.
ghost use Rattle.std.specs.Prelude.{◌≡◌, ◌+◌, ◌≤◌, ◌<◌, length, replicate, slice_index};
ghost use Rattle.card.specs.Row.{register_bytes, row_bytes, row_size, Whole, regs_of, put_regs, zeros, well_formed};
ghost use Rattle.card.specs.Access.{accessed, value_read, row_after_read, ram_written, row_after_write, row_after_reset, fresh_row};

use queues::queues::Queue;
use registers::regs::{Later, Regs};

pub(crate) const REGISTER_BYTES: usize = 64;

pub const ROW_BYTES: usize = 1088;

// The fixed bytes that each row begins with.
const MARK: [u8; 2] = *b"\x4e\x44";

// The length of the row that these bytes begin with, which its mark says: there is one kind of row.
#[tactic(auto, unfolding(crate::specs::Row::row_size))]
pub fn size(row: &[u8]) -> usize
    ensures { result ≡ row_size row.now }
{
    ROW_BYTES
}

// Kept: each function of a row says how long its bytes are, since the public ones keep their clauses (`load`, `store`,
// `well_formed`, `hardware_reset`, `read`, `write`).

// A queue in a row: the bytes of the receive queue stand one behind those of the transmit queue.
fn queue_at(row: &[u8], at: usize) -> Queue
    requires { at + 5 < length row.now }
    ensures { result
        ≡ record { oldest = slice_index row.now at; second = slice_index row.now (at + 3); done = slice_index row.now (at + 5) } }
{
    Queue {
        oldest: row[at],
        second: row[at + 3],
        done: row[at + 5],
    }
}

#[tactic(auto, unfolding(crate::specs::Row::regs_of))]
pub fn load(row: &[u8]) -> Regs
    requires { register_bytes ≤ length row.now }
    ensures { result ≡ regs_of row.now }
{
    let later = Later {
        fetched: row[32],
        naklow: row[33],
        nakhigh: row[34],
    };
    Regs {
        id: row[2],
        status: row[3],
        diagnostic: row[4],
        mask: row[5],
        configuration: row[6],
        setup: row[7],
        tentative: row[8],
        nid: row[9],
        high: row[10],
        low: row[11],
        mode: row[12],
        transmit: queue_at(row, 13),
        receive: queue_at(row, 14),
        long: row[15],
        later,
    }
}

// The registers are written to bytes 2 to 19 and 32 to 34; no other byte changes.
// Kept: a store for each byte names its place, as `Row.put_regs` does; arrays that are copied in would hide it.
#[tactic(auto, unfolding(crate::specs::Row::put_regs))]
pub fn store(row: &mut [u8], g: Regs)
    requires { register_bytes ≤ length row.old }
    ensures { row.new ≡ put_regs row.old g }
{
    row[2] = g.id;
    row[3] = g.status;
    row[4] = g.diagnostic;
    row[5] = g.mask;
    row[6] = g.configuration;
    row[7] = g.setup;
    row[8] = g.tentative;
    row[9] = g.nid;
    row[10] = g.high;
    row[11] = g.low;
    row[12] = g.mode;
    row[13] = g.transmit.oldest;
    row[14] = g.receive.oldest;
    row[15] = g.long;
    row[16] = g.transmit.second;
    row[17] = g.receive.second;
    row[18] = g.transmit.done;
    row[19] = g.receive.done;
    row[32] = g.later.fetched;
    row[33] = g.later.naklow;
    row[34] = g.later.nakhigh;
}

// Each byte is zero.
#[tactic(auto, unfolding(crate::specs::Row::zeros))]
pub fn all_zero(s: &[u8]) -> bool
    ensures { result ≡ zeros s.now }
{
    s.iter().all(|&b| b == 0)
}

// Each byte becomes zero.
// Kept: public, and called in this file alone; OfCard.fill_zero of promises holds its contract.
pub fn fill_zero(s: &mut [u8])
    ensures { s.new ≡ replicate (length s.old) 0 }
{
    s.fill(0);
}

// The row's own well-formedness: its mark, its registers, and zeros in the other bytes up to 63.
#[tactic(auto, unfolding(crate::specs::Row::well_formed, crate::specs::Row::marked, crate::specs::Row::spare))]
pub fn well_formed(row: &[u8]) -> bool
    requires { register_bytes ≤ length row.now }
    ensures { result ≡ well_formed row.now }
{
    row.starts_with(&MARK)
        && all_zero(&row[20..32])
        && all_zero(&row[35..REGISTER_BYTES])
        && load(row).fit()
}

// A new row, whatever the bytes were.
pub fn create(row: &mut [u8])
    requires { length row.old ≡ row_bytes }
    ensures { row.new ≡ fresh_row }
{
    fill_zero(row);
    row[0..2].copy_from_slice(&MARK);
    store(row, Regs::hardware_reset());
}

pub fn hardware_reset(row: &mut [u8])
    requires { register_bytes ≤ length row.old }
    ensures { row.new ≡ row_after_reset row.old }
{
    store(row, Regs::hardware_reset());
}

// The registers that an access leaves are written. C-13: where it fetches, byte 32 becomes the RAM byte at their pointer.
#[tactic(auto, using(crate::proofs::Rows::Sizes::whole_registers, crate::proofs::Rows::Sizes::whole_long))]
fn put_accessed(row: &mut [u8], fetches: bool, g: Regs)
    requires { Whole row.old }
    ensures { row.new ≡ accessed row.old fetches g }
{
    let ram = row[REGISTER_BYTES + g.pointer()];
    store(row, g.fetched(fetches, ram));
}

// A register of the card is read; `Regs::may_read` says whether it can be.
#[tactic(auto, using(crate::proofs::Rows::Sizes::whole_registers), unfolding(crate::specs::Access::value_read, crate::specs::Access::row_after_read))]
pub fn read(row: &mut [u8], register: usize) -> u8
    requires { Whole row.old }
    ensures value { result ≡ value_read row.old register }
    ensures bytes { row.new ≡ row_after_read row.old register }
{
    let g = load(row);
    let value = g.read_value(register);
    put_accessed(row, g.read_fetches(register), g.after_read(register));
    value
}

// Register 4 writes the RAM byte at the pointer; the others write none.
fn write_ram(row: &mut [u8], register: usize, at: usize, value: u8)
    requires { at < length row.old }
    ensures { row.new ≡ ram_written row.old register at value }
{
    if register == 4 {
        row[at] = value;
    }
}

// A register of the card is written; `Regs::may_write` says whether it can be.
#[tactic(auto, using(crate::proofs::Rows::Sizes::whole_registers, crate::proofs::Rows::Sizes::whole_long, crate::proofs::Rows::Accesses::whole_ram), unfolding(crate::specs::Access::row_after_write))]
pub fn write(row: &mut [u8], register: usize, value: u8)
    requires { Whole row.old }
    ensures { row.new ≡ row_after_write row.old register value }
{
    let g = load(row);
    write_ram(row, register, REGISTER_BYTES + g.pointer(), value);
    put_accessed(
        row,
        Regs::write_fetches(register),
        g.after_write(register, value),
    );
}
