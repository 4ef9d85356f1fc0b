// Document 01, "Registers" and "Packets", for a row of a network, and the fresh call. Each call tests SHAPE once.
// Kept: network, row and register are what a host passes, as 01 gives the calls; that a row stands in the lent bytes is a
// `requires` of the private ones, as in network.rt.
ghost use Rattle.std.specs.Prelude.{◌≡◌, true, ◌∷◌, ◌++◌, suc, ◌≤◌, ◌<◌, length, take, drop, replicate};
ghost use Rattle.places.specs.Places.{onward};
ghost use Rattle.told.specs.Refusals.{number};
ghost use Rattle.card.specs.Access.{fresh_row};
ghost use Rattle.table.specs.Rows.{header_bytes, row_start, joined};
ghost use Rattle.table.specs.Network.{mark, rows, shape};
ghost use Rattle.table.specs.Calls.{place_number, net_read_number, reading, net_reading, net_after_read, settled, net_write_number, net_after_write, net_after_reset, timer_number, net_after_timer, interrupting, net_interrupt, net_data_from, net_data, net_data_number, exact_length, fresh_number, net_after_fresh};

use crate::network::{
    HEADER, LOST, MARK, ROWS, holder, node_of, phase, put_regs, regs_at, row_at, row_end,
    row_start, rows, shape, turn,
};
use card::row::ROW_BYTES;
use told::refusals::Refusal;

// SHAPE and ROW: the refusals of every call to a row.
#[tactic(auto, using(told::proofs::Told::Results::asking, crate::proofs::Access::Handed::behind), unfolding(crate::specs::Calls::place_number, crate::specs::Calls::place_refusals))]
pub fn place(net: &[u8], row: usize) -> Result<(), Refusal>
    ensures { number result ≡ place_number net.now row }
{
    Refusal::Shape.when(!shape(net))?;
    Refusal::Row.when(rows(net) <= row)
}

// And what the card refuses of a read.
#[tactic(auto, using(told::proofs::Told::Results::asking, crate::proofs::Access::Handed::behind), unfolding(crate::specs::Calls::net_read_number, crate::specs::Calls::place_number))]
fn may_read(net: &[u8], row: usize, register: usize) -> Result<(), Refusal>
    ensures { number result ≡ net_read_number net.now row register }
{
    place(net, row)?;
    regs_at(net, row).may_read(register)
}

// A register of a row is read.
#[tactic(auto, using(told::proofs::Told::Results::leaving, crate::proofs::Access::Handed::behind, crate::proofs::Rows::Walks::lent), unfolding(crate::specs::Calls::net_reading, crate::specs::Calls::net_after_read))]
pub fn read(net: &mut [u8], row: usize, register: usize) -> Result<u8, Refusal>
    ensures answer { reading result ≡ net_reading net.old row register }
    ensures bytes { net.new ≡ net_after_read net.old row register }
{
    may_read(net, row, register)?;
    let a = row_start(net, row);
    let e = row_end(net, a);
    Ok(card::row::read(&mut net[a..e], register))
}

// Row k, as a call has left it, was on line before the call or was not: the row that comes on line bursts, and the
// line is lost with it, or with a holder that goes off line.
#[tactic(auto, using(crate::proofs::Rows::Starts::start_header, crate::proofs::Access::Settled::settles))]
fn settle(net: &mut [u8], k: usize, was: bool)
    requires { row_start net.old (suc k) ≤ length net.old }
    ensures { net.new ≡ settled net.old k was }
{
    let g = regs_at(net, k);
    if g.on_line() {
        if was {
            return;
        }
        put_regs(net, k, g.burst());
        turn(net, LOST, 0);
        return;
    }
    if was & (phase(net) != LOST) & (holder(net) == k) {
        turn(net, LOST, 0);
    }
}

// A register of a row is written, in a network that SHAPE does not refuse. It serves whoever has tested SHAPE already.
#[tactic(auto, using(crate::proofs::Shaped::Shapes::shape_least, crate::proofs::Shaped::Shapes::shape_within, crate::proofs::Shaped::Shapes::shape_room, crate::proofs::Rows::Walks::lent))]
pub fn write_on(net: &mut [u8], row: usize, register: usize, value: u8) -> Result<(), Refusal>
    requires net_value { shape net.old ≡ true }
    requires row_bound { row < rows net.old }
    ensures number { number result ≡ net_write_number net.old row register value }
    ensures bytes { net.new ≡ net_after_write net.old row register value }
{
    let g = regs_at(net, row);
    g.may_write(register, value)?;
    let after = g.after_write(register, value);
    let n = rows(net);
    let duplicate = after.on_line() & node_of(net, after.id, row, n).is_some();
    Refusal::Duplicate.when(duplicate)?;
    let a = row_start(net, row);
    let e = row_end(net, a);
    card::row::write(&mut net[a..e], register, value);
    settle(net, row, g.on_line());
    Ok(())
}

// A register of a row is written.
#[tactic(auto, using(told::proofs::Told::Results::leaving, told::proofs::Told::Results::first_stands, crate::proofs::Access::Handed::behind), unfolding(crate::specs::Calls::net_write_number, crate::specs::Calls::net_after_write, crate::specs::Calls::place_number))]
pub fn write(net: &mut [u8], row: usize, register: usize, value: u8) -> Result<(), Refusal>
    ensures number { number result ≡ net_write_number net.old row register value }
    ensures bytes { net.new ≡ net_after_write net.old row register value }
{
    place(net, row)?;
    write_on(net, row, register, value)
}

// A row's hardware reset.
#[tactic(auto, using(told::proofs::Told::Results::leaving, crate::proofs::Access::Handed::behind, crate::proofs::Rows::Walks::lent), unfolding(crate::specs::Calls::net_after_reset))]
pub fn reset(net: &mut [u8], row: usize) -> Result<(), Refusal>
    ensures number { number result ≡ place_number net.old row }
    ensures bytes { net.new ≡ net_after_reset net.old row }
{
    place(net, row)?;
    let was = regs_at(net, row).on_line();
    let a = row_start(net, row);
    let e = row_end(net, a);
    card::row::hardware_reset(&mut net[a..e]);
    settle(net, row, was);
    Ok(())
}

// SHAPE, ROW and NOTREADY.
#[tactic(auto, using(told::proofs::Told::Results::asking, crate::proofs::Access::Handed::behind), unfolding(crate::specs::Calls::timer_number, crate::specs::Calls::place_number, crate::specs::Network::on_line_at))]
fn may_expire(net: &[u8], row: usize) -> Result<(), Refusal>
    ensures { number result ≡ timer_number net.now row }
{
    place(net, row)?;
    Refusal::NotReady.when(!regs_at(net, row).on_line())
}

// A row's lost-token timer expires.
#[tactic(auto, using(told::proofs::Told::Results::leaving, crate::proofs::Access::Handed::behind), unfolding(crate::specs::Calls::net_after_timer))]
pub fn timer(net: &mut [u8], row: usize) -> Result<(), Refusal>
    ensures number { number result ≡ timer_number net.old row }
    ensures bytes { net.new ≡ net_after_timer net.old row }
{
    may_expire(net, row)?;
    let g = regs_at(net, row).burst();
    put_regs(net, row, g);
    turn(net, LOST, 0);
    Ok(())
}

// Whether the interrupt of a row is active.
#[tactic(auto, using(crate::proofs::Access::Handed::behind), unfolding(crate::specs::Calls::net_interrupt))]
pub fn interrupt(net: &[u8], row: usize) -> Result<bool, Refusal>
    ensures { interrupting result ≡ net_interrupt net.now row }
{
    place(net, row)?;
    Ok(regs_at(net, row).interrupt())
}

// The data of a page of a row: that stretch of the network itself, of length 0 where the call below refuses.
// Kept: the bytes and the refusal are two calls, since docs/STATEMENTS.md has `page_data` give bytes for any network.
#[tactic(auto, using(told::proofs::Told::Results::refused_keeps, told::proofs::Told::Results::done_goes, crate::proofs::Access::Handed::behind, told::proofs::Told::Results::is_refused, crate::proofs::Access::Placed::data_placed), unfolding(crate::specs::Calls::net_data))]
pub fn page_data(net: &[u8], row: usize, page: usize) -> &[u8]
    ensures bytes { result.now ≡ net_data net.now row page }
    ensures place { net_data_number net.now row page ≡ 0 → result.ref_ptr ≡ onward net.entry.ref_ptr (net_data_from net.now row page) }
{
    match place(net, row) {
        Ok(()) => card::packets::page_data(row_at(net, row), page),
        Err(_) => &net[0..0],
    }
}

// Whether the reader's data may be asked for.
#[tactic(auto, using(told::proofs::Told::Results::asking, crate::proofs::Access::Handed::behind), unfolding(crate::specs::Calls::net_data_number, crate::specs::Calls::place_number))]
pub fn may_read_data(net: &[u8], row: usize, page: usize) -> Result<(), Refusal>
    ensures { number result ≡ net_data_number net.now row page }
{
    place(net, row)?;
    card::packets::may_read_data(row_at(net, row), page)
}

// A network of n rows is made in the bytes lent, whatever they were.
#[tactic(auto, using(told::proofs::Told::Results::leaving, crate::proofs::Access::Handed::behind, told::proofs::Told::Results::is_done, crate::proofs::Access::Fresh::fresh_done), unfolding(crate::specs::Calls::net_after_fresh))]
pub fn fresh(net: &mut [u8], n: usize) -> Result<(), Refusal>
    ensures number { number result ≡ fresh_number net.old n }
    ensures bytes { net.new ≡ net_after_fresh net.old n }
{
    may_make(net, n)?;
    write_header(net, n);
    create_rows(net, n);
    Ok(())
}

// The length of a network of as many rows as there may be.
pub const LONGEST: usize = HEADER + ROW_BYTES * ROWS;

// The length of a network of n rows as the fresh call makes them.
#[tactic(auto, unfolding(crate::specs::Calls::exact_length))]
pub fn exact_length(n: usize) -> usize
    requires { n < 256 }
    ensures { result ≡ exact_length n }
{
    HEADER + ROW_BYTES * n
}

// VALUE and ROOM.
#[tactic(auto, using(told::proofs::Told::Results::asking, crate::proofs::Access::Handed::behind), unfolding(crate::specs::Calls::fresh_number, crate::specs::Calls::fresh_refusals))]
fn may_make(net: &[u8], n: usize) -> Result<(), Refusal>
    ensures { number result ≡ fresh_number net.now n }
{
    Refusal::Value.when((n == 0) | (ROWS < n))?;
    Refusal::Room.when(net.len() != exact_length(n))
}

// The header of a network of n rows in LOST.
fn write_header(net: &mut [u8], n: usize)
    requires header_bytes_in_bounds { header_bytes ≤ length net.old }
    requires n_bound { n < 256 }
    ensures { net.new ≡ mark ++ (1 ∷ n ∷ replicate 12 0) ++ drop header_bytes net.old }
{
    net[0..HEADER].fill(0);
    net[0..2].copy_from_slice(&MARK);
    net[2] = 1;
    net[3] = n as u8;
}

// Rows are laid over the bytes one after the other: they have no marks yet by which a walk could find them.
// Kept: `chunks_exact_mut` and `take` were tried: once those borrows are over, a proof knows the length and no byte.
fn create_rows(net: &mut [u8], n: usize)
    requires { exact_length n ≤ length net.old }
    ensures { net.new ≡ take header_bytes net.old ++ joined (λ k. fresh_row) 0 n (drop (exact_length n) net.old) }
{
    let mut a = HEADER;
    for _ in 0..n {
        let e = a + ROW_BYTES;
        card::row::create(&mut net[a..e]);
        a = e;
    }
}
