// The calls that the line and the desk do not have as they are. Where a write fails, its error is handed back, and the
// network is as the call left it.
ghost use Rattle.std.specs.Prelude.{◌≡◌, ◌≤◌, length, Ok, Err};
ghost use Rattle.bits.specs.Words.{pick};
ghost use Rattle.told.specs.Numbers.{told};
ghost use Rattle.told.specs.Refusals.{number};
ghost use Rattle.words.specs.Hex.{unhex};
ghost use Rattle.table.specs.Network.{row_limit};
ghost use Rattle.orders.specs.Check.{verdict};
ghost use Rattle.desk.specs.Load.{loading, net_after_load};
ghost use Rattle.desk.specs.Lap.{net_after_lap};
ghost use Rattle.prompt.specs.Input.{LINE as line_room};
ghost use Rattle.prompt.specs.declared.answers.Mistake.TheVariants.{Outside};
ghost use Rattle.bench.specs.Calls.{shape_number, inside, poked, value_refusals, wide_number, value_number, net_after_value};

use desk::laps::{Taker, Walked};
use orders::check::Bad;
use print::gather::Output;
use prompt::answers::{Mistake, tell};
use prompt::input::LINE;
use registers::regs::Regs;
use std::io;
use table::network::{regs_at, shape};
use told::refusals::Refusal;

// The most bytes that a line's digits can spell: two digits a byte.
const ORDER: usize = LINE / 2;

// SHAPE alone.
#[tactic(auto, unfolding(crate::specs::Calls::shape_number))]
pub(crate) fn check(net: &[u8]) -> Result<(), Refusal>
    ensures { number result ≡ shape_number net.now }
{
    Refusal::Shape.when(!shape(net))
}

// Whether the n bytes at `at` all stand inside the lent ones.
pub(crate) fn inside(net: &[u8], at: usize, n: usize) -> bool
    ensures { result ≡ inside net.now at n }
{
    if net.len() < at {
        return false;
    }
    n <= net.len() - at
}

// Bytes are stored, where they all stand inside the lent ones; else nothing is.
#[tactic(auto, using(words::proofs::Pairs::unhex_length), unfolding(crate::specs::Calls::poked))]
pub(crate) fn poke(net: &mut [u8], at: usize, digits: &[u8]) -> Result<(), Mistake>
    ensures done { result ≡ pick (inside net.old at (length (unhex digits.now))) (Ok tt) (Err Outside) }
    ensures bytes { net.new ≡ poked net.old at (unhex digits.now) }
{
    let n = digits.len() / 2;
    if !inside(net, at, n) {
        return Err(Mistake::Outside);
    }
    words::hex::unhex(digits, &mut net[at..at + n]);
    Ok(())
}

// The network is made anew from the order that the digits spell.
pub(crate) fn load(net: &mut [u8], digits: &[u8]) -> Result<(), Bad>
    requires { length digits.now ≤ line_room }
    ensures told { verdict result ≡ loading (unhex digits.now) net.old }
    ensures bytes { net.new ≡ net_after_load (unhex digits.now) net.old }
{
    let n = digits.len() / 2;
    let mut order = [0; ORDER];
    words::hex::unhex(digits, &mut order[0..n]);
    desk::loading::load(&order[0..n], net)
}

// A value above 255 has a bit that no register names: REGISTER, or else VALUE.
#[tactic(auto, using(told::proofs::Told::Results::handed_number, told::proofs::Told::Results::stands, told::proofs::Told::Results::passed_not), unfolding(told::specs::Numbers::refuse))]
fn wide_value(g: Regs, register: usize) -> Result<(), Refusal>
    ensures { number result ≡ told (value_refusals g register) }
{
    Refusal::Register.when(g.no_register(register))?;
    Err(Refusal::Value)
}

// SHAPE and ROW come before it.
#[tactic(auto, using(told::proofs::Told::Results::asking, table::proofs::Access::Handed::room_behind), unfolding(crate::specs::Calls::wide_number, table::specs::Calls::place_number))]
fn refuse_wide(net: &[u8], row: usize, register: usize) -> Result<(), Refusal>
    ensures { number result ≡ wide_number net.now row register }
{
    table::calls::place(net, row)?;
    wide_value(regs_at(net, row), register)
}

// A register of a row is written.
#[tactic(auto, unfolding(crate::specs::Calls::value_number, crate::specs::Calls::net_after_value))]
pub(crate) fn write(
    net: &mut [u8],
    row: usize,
    register: usize,
    value: usize,
) -> Result<(), Refusal>
    ensures number { number result ≡ value_number net.old row register value }
    ensures bytes { net.new ≡ net_after_value net.old row register value }
{
    match u8::try_from(value) {
        Ok(value) => table::calls::write(net, row, register, value),
        Err(_) => refuse_wide(net, row, register),
    }
}

// The ID, the row and the invitations of a taker.
fn taker<P: Print>(out: &mut Output<P>, taker: Taker) -> io::Result<()> {
    out.number(usize::from(taker.id))?;
    out.number(usize::from(taker.row))?;
    out.number(usize::from(taker.invitations))
}

// DONE and the total, and the takers.
fn lapped<P: Print>(out: &mut Output<P>, walked: &Walked) -> io::Result<()>
    requires { walked.now.n ≤ row_limit }
{
    out.begin();
    out.text(b"DONE")?;
    out.number(walked.total as usize)?;
    for &t in &walked.list[..walked.n] {
        taker(out, t)?;
    }
    out.end()
}

pub(crate) fn lap<P: Print>(out: &mut Output<P>, net: &mut [u8], room: usize) -> io::Result<()>
    ensures { net.new ≡ net_after_lap net.old room }
{
    match desk::laps::walk(net, room) {
        Ok(walked) => lapped(out, &walked),
        Err(refusal) => tell(out, refusal),
    }
}
