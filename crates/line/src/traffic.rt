// Document 01, "One line step", TAKEN: the holder's packet.
#![tactic(auto, using(crate::proofs::Rooms::rooms))]

ghost use Rattle.std.specs.Prelude.{◌≡◌, true, ◌<◌, IfSome, is_none, unwrap_or};
ghost use Rattle.card.specs.Packets.{page_shape};
ghost use Rattle.table.specs.Rows.{row_at};
ghost use Rattle.table.specs.Network.{rows, shape};
ghost use Rattle.line.specs.Traffic.{HasRow, stamped_net, went_out, asked, broadcast_turn, packet_turn, enquiry_turn, try_turn, taken_turn};

use crate::passes::{Event, SentPacket, happen, on_row};
use bits::way::Way;
use card::packets::Shape;
use table::network::{node_of, put_regs, regs_at, row_at, row_end, row_start, rows};

// Faults of a step: "1 packet damaged, 2 final ACK lost".
// Kept: a fault is the number that a host passes, as `Traffic.went_out` and `packet_turn` take it.
const DAMAGED: usize = 1;

const ACK_LOST: usize = 2;

// What becomes of the holder's packet: where ACK or NAK answered its enquiry, the row that did; of a packet that went,
// its shape; and of one whose ACK did not come, whether it was stored.
#[derive(Clone, Copy, Debug, PartialEq, Eq)]
pub enum Outcome {
    Nothing,
    Malformed,
    Broadcast(Shape),
    NoAnswer,
    Nak(usize),
    Delivered(usize, Shape),
    Unacknowledged(usize, Shape, bool),
}

// An enquiry of row h that no packet follows: the others hear it, and a NAK answered it or nobody did.
#[tactic(auto, using(crate::proofs::Rooms::rooms), unfolding(crate::specs::Traffic::asked, crate::specs::Traffic::on_row))]
fn asked(net: &mut [u8], h: usize, nak: bool)
    requires { HasRow net.old h }
    ensures { net.new ≡ asked net.old h nak }
{
    happen(net, Event::Message(h, false));
    on_row(net, h, |g| g.enquired(nak));
}

// A packet that waits in a page of row h, and the fault of the step in which it is tried.
// Kept: it derives no more, since nothing compares or prints one.
#[derive(Clone, Copy)]
struct Sending {
    h: usize,
    page: usize,
    fault: usize,
    ghost page_bound: { page < 4 },
}

// Kept: the network is lent again to each method, and HasRow says of its bytes that row h is there.
impl Sending {
    // The row's ID is put at the packet's head.
    #[tactic(auto, using(crate::proofs::Rooms::rooms, table::proofs::Rows::Walks::walked_room, table::proofs::Rows::Walks::row_sized, crate::proofs::Turn::Sends::stamped_is, crate::proofs::Turn::Sends::stamped_fits))]
    fn stamp(self, net: &mut [u8])
        requires { HasRow net.old self.h }
        ensures bytes { net.new ≡ stamped_net net.old self.h self.page }
        ensures rows { (shape net.new ≡ true) × (rows net.new ≡ rows net.old) }
    {
        let a = row_start(net, self.h);
        let e = row_end(net, a);
        card::packets::stamp(&mut net[a..e], self.page);
    }

    // The packet goes out: the others hear it, and it is stored where it is taken, unless fault 1 damages it.
    #[tactic(auto, using(crate::proofs::Rooms::rooms), unfolding(crate::specs::Traffic::went_out))]
    fn send(self, net: &mut [u8], to: Option<usize>)
        requires { HasRow net.old self.h }
        ensures bytes { net.new ≡ went_out net.old self.h self.page self.fault (unwrap_or to (rows net.old)) (is_none to) }
        ensures row { HasRow net.new self.h }
    {
        self.stamp(net);
        let packet = card::packets::packet_at(row_at(net, self.h), self.page);
        happen(net, Event::Message(self.h, false));
        if self.fault != DAMAGED {
            SentPacket {
                h: self.h,
                to,
                packet,
            }
            .carry(net);
        }
    }

    fn shape(self, net: &[u8]) -> Shape
        requires { HasRow net.now self.h }
        ensures { result ≡ page_shape (row_at net.now self.h) self.page }
    {
        card::packets::page_shape(row_at(net, self.h), self.page)
    }

    // Row t has answered the enquiry with an ACK: the packet goes to it. Its own ACK is lost with fault 2.
    #[tactic(auto, using(crate::proofs::Rooms::rooms), unfolding(crate::specs::Traffic::packet_turn, crate::specs::Traffic::on_row))]
    fn deliver(self, net: &mut [u8], t: usize) -> Outcome
        requires row { HasRow net.old self.h }
        requires t_bound { t < rows net.old }
        ensures answer { result ≡ (packet_turn net.old self.h self.page self.fault t).answer }
        ensures bytes { net.new ≡ (packet_turn net.old self.h self.page self.fault t).after }
    {
        let shape = self.shape(net);
        let stored = (self.fault != DAMAGED) & shape.storable(regs_at(net, t));
        let acknowledged = stored & (self.fault != ACK_LOST);
        self.send(net, Some(t));
        on_row(net, self.h, |g| g.heard(false).sent(acknowledged));
        if acknowledged {
            return Outcome::Delivered(t, shape);
        }
        Outcome::Unacknowledged(t, shape, stored)
    }

    // An enquiry goes to row t, where a row has the ID.
    #[tactic(auto, using(crate::proofs::Rooms::rooms), unfolding(crate::specs::Traffic::enquiry_turn))]
    fn enquire(self, net: &mut [u8], to: Option<usize>) -> Outcome
        requires row { HasRow net.old self.h }
        requires to_bound { IfSome to (λ t. t < rows net.old) }
        ensures answer { result ≡ (enquiry_turn net.old self.h self.page self.fault (unwrap_or to (rows net.old))).answer }
        ensures bytes { net.new ≡ (enquiry_turn net.old self.h self.page self.fault (unwrap_or to (rows net.old))).after }
    {
        let Some(t) = to else {
            asked(net, self.h, false);
            return Outcome::NoAnswer;
        };
        if regs_at(net, t).waiting(Way::Receive) {
            return self.deliver(net, t);
        }
        asked(net, self.h, true);
        Outcome::Nak(t)
    }

    #[tactic(auto, using(crate::proofs::Rooms::rooms), unfolding(crate::specs::Traffic::broadcast_turn, crate::specs::Traffic::on_row))]
    fn broadcast(self, net: &mut [u8]) -> Outcome
        requires { HasRow net.old self.h }
        ensures answer { result ≡ (broadcast_turn net.old self.h self.page self.fault).answer }
        ensures bytes { net.new ≡ (broadcast_turn net.old self.h self.page self.fault).after }
    {
        let shape = self.shape(net);
        self.send(net, None);
        on_row(net, self.h, |g| g.sent(false));
        Outcome::Broadcast(shape)
    }

    // The holder tries the packet.
    #[tactic(auto, using(crate::proofs::Rooms::rooms, crate::proofs::Turn::Tries::found_or), unfolding(crate::specs::Traffic::try_turn, crate::specs::Traffic::on_row))]
    fn attempt(self, net: &mut [u8]) -> Outcome
        requires { HasRow net.old self.h }
        ensures answer { result ≡ (try_turn net.old self.h self.page self.fault).answer }
        ensures bytes { net.new ≡ (try_turn net.old self.h self.page self.fault).after }
    {
        if self.shape(net).malformed() {
            on_row(net, self.h, |g| g.sent(false));
            return Outcome::Malformed;
        }
        let id = card::packets::destination(row_at(net, self.h), self.page);
        if id == 0 {
            return self.broadcast(net);
        }
        let to = node_of(net, id, self.h, rows(net));
        self.enquire(net, to)
    }
}

// TAKEN: the cancels asked of the holder take effect, and then it tries its packet.
#[tactic(auto, using(crate::proofs::Rooms::rooms, crate::proofs::Turn::Tries::cancels_row, crate::proofs::Turn::Tries::taken_nothing, crate::proofs::Turn::Tries::taken_tried, registers::proofs::Values::Ends::transmit_page_small))]
pub(crate) fn taken(net: &mut [u8], h: usize, fault: usize) -> Outcome
    requires { HasRow net.old h }
    ensures answer { result ≡ (taken_turn net.old h fault).answer }
    ensures bytes { net.new ≡ (taken_turn net.old h fault).after }
{
    let g = regs_at(net, h).cancelled();
    put_regs(net, h, g);
    if g.waiting(Way::Transmit) {
        let page = g.page(Way::Transmit);
        return Sending { h, page, fault }.attempt(net);
    }
    Outcome::Nothing
}
