// What reaches the rows in a line step (document 01): an event that reaches every row, other registers for one row,
// and a packet for the rows that take it.
ghost use Rattle.std.specs.Prelude.{◌≡◌, ℕ, true, ◌≤◌, ◌<◌, length, is_none, unwrap_or};
ghost use Rattle.card.specs.Row.{register_bytes, Whole, put_regs, well_formed};
ghost use Rattle.registers.specs.declared.regs.Regs.{Regs};
ghost use Rattle.table.specs.Rows.{row_at, set_row};
ghost use Rattle.table.specs.Network.{rows, on_regs, regs_at, shape};
ghost use Rattle.line.specs.Traffic.{HasRow, happens, happened, takes, carried_row, carried};

use bits::way::Way;
use card::packets::Packet;
use registers::regs::Regs;
use table::network::{put_regs, regs_at, rows};
use table::walk::each_row_mut;

// What reaches every row at once.
// Kept: data and no closure, since `Traffic.happens` and the laws over it name the three.
#[derive(Clone, Copy, Debug, PartialEq, Eq)]
pub(crate) enum Event {
    Recovery,
    // A message of the row named, which the others hear; an invitation, or not.
    Message(usize, bool),
    // An invitation to the ID was taken by the row.
    Taken(u8, usize),
}

fn happens(g: Regs, k: usize, event: Event) -> Regs
    ensures { result ≡ happens event k g }
{
    match event {
        Event::Recovery => g.recovered(),
        Event::Message(h, token) => { if k == h { g } else { g.heard(token) } }
        Event::Taken(id, taker) => g.answered(id, k == taker),
    }
}

fn happen_row(row: &mut [u8], k: usize, event: Event)
    requires { register_bytes ≤ length row.old }
    ensures { row.new ≡ on_regs (happens event k) row.old }
{
    let g = card::row::load(row);
    card::row::store(row, happens(g, k, event));
}

// The event reaches each row.
// Kept: SHAPE is required of the bytes here, by `carry` and in step.rt, since `step_on` is public with the bytes.
#[tactic(auto, using(crate::proofs::Rooms::rooms))]
pub(crate) fn happen(net: &mut [u8], event: Event)
    requires { shape net.old ≡ true }
    ensures bytes { net.new ≡ happened net.old event }
    ensures rows { (shape net.new ≡ true) × (rows net.new ≡ rows net.old) }
{
    let n = rows(net);
    each_row_mut(net, n, |k, row| happen_row(row, k, event));
}

// Row k is given the registers that f makes of its own.
#[tactic(auto, using(crate::proofs::Rooms::rooms))]
pub(crate) fn on_row<F: FnOnce(Regs) -> Regs>(net: &mut [u8], k: usize, f: F)
    requires row { HasRow net.old k }
    requires accepts { F.IsAlwaysCallable f }
    ensures { (g : Regs) × F.post f (regs_at net.old k) g × (net.new ≡ set_row net.old k (put_regs (row_at net.old k) g)) }
{
    let g = f(regs_at(net, k));
    put_regs(net, k, g);
}

// A packet that row h sent to row `to`; a broadcast is sent to no one row.
#[derive(Drop)]
pub(crate) struct SentPacket {
    pub h: usize,
    pub to: Option<usize>,
    pub packet: Packet,
}

impl SentPacket {
    // Row k takes it if it is sent to row k, or is a broadcast of another row that it wants.
    fn takes(&self, k: usize, g: Regs) -> bool
        ensures { (n : ℕ) → k < n → result ≡ takes self.now.h (unwrap_or self.now.to n) (is_none self.now.to) k g }
    {
        match self.to {
            Some(t) => k == t,
            None => (k != self.h) & g.takes_broadcasts(),
        }
    }

    // It is stored in the receive page of row k, if the row takes it and where that can be.
    #[tactic(auto, using(card::proofs::Rows::Sizes::whole_registers, crate::proofs::Change::Carry::room, registers::proofs::Values::Ends::receive_page_small))]
    fn carry_row(&self, row: &mut [u8], k: usize)
        requires whole { Whole row.old }
        requires row_value { well_formed row.old ≡ true }
        ensures { (n : ℕ) → k < n → row.new ≡ carried_row self.now.h (unwrap_or self.now.to n) (is_none self.now.to) self.now.packet k row.old }
    {
        let g = card::row::load(row);
        if self.takes(k, g) & g.waiting(Way::Receive) & self.packet.shape.storable(g) {
            card::packets::store_packet(row, g.page(Way::Receive), self.packet);
            let g = card::row::load(row).received();
            card::row::store(row, g);
        }
    }

    // It reaches each row.
    #[tactic(auto, using(crate::proofs::Rooms::rooms))]
    pub(crate) fn carry(&self, net: &mut [u8])
        requires { shape net.old ≡ true }
        ensures { net.new ≡ carried net.old self.now.h (unwrap_or self.now.to (rows net.old)) (is_none self.now.to) self.now.packet }
    {
        let n = rows(net);
        each_row_mut(net, n, |k, row| self.carry_row(row, k));
    }
}
