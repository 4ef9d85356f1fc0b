// Document 01, "One line step": what the line does to one card's registers, and what it asks of them.
ghost use Rattle.std.specs.Prelude.{◌≡◌};
ghost use Rattle.registers.specs.Events.{burst, recovered, heard, answered, risen_nid, cancelled, sent, enquired, received, waits, takes_broadcasts, page};

use crate::regs::Regs;
use bits::flags::{BROADCASTS, CANCEL, DUPID, MYRECON, RCVACT, RECON, TENTID, TOKEN};
use bits::way::Way;

impl Regs {
    // A reconfiguration burst of this card's own.
    #[tactic(auto, unfolding(crate::specs::Events::burst))]
    pub fn burst(mut self) -> Regs
        ensures { result ≡ burst self }
    {
        self.diagnostic |= MYRECON;
        self
    }

    // The line recovers.
    #[tactic(auto, unfolding(crate::specs::Events::recovered, crate::specs::Fit::awake, crate::specs::Fit::on_line))]
    pub fn recovered(mut self) -> Regs
        ensures { result ≡ recovered self }
    {
        if self.awake() {
            self.status |= RECON;
        }
        // The lap starts at the row's own ID, which it does not answer itself.
        if self.on_line() {
            self.nid = self.id;
        }
        self
    }

    // Another card's message is heard: an invitation (`token`), or another one.
    #[tactic(auto, unfolding(crate::specs::Events::heard))]
    pub fn heard(mut self, token: bool) -> Regs
        ensures { result ≡ heard self token }
    {
        let awake = self.awake();
        if awake {
            self.diagnostic |= RCVACT;
        }
        if awake & token {
            self.diagnostic |= TOKEN;
        }
        self
    }

    // An invitation to `number` is answered; `taker`: by this card.
    #[tactic(auto, unfolding(crate::specs::Events::answered))]
    pub fn answered(mut self, number: u8, taker: bool) -> Regs
        ensures { result ≡ answered self number taker }
    {
        let awake = self.awake();
        if awake & (self.id == number) {
            self.diagnostic |= DUPID;
        }
        if awake & !taker & (self.tentative == number) {
            self.diagnostic |= TENTID;
        }
        self
    }

    // Nobody took the invitation: the next one goes to the next ID.
    #[tactic(auto, unfolding(crate::specs::Events::risen_nid))]
    pub fn risen_nid(self) -> Regs
        ensures { result ≡ risen_nid self }
    {
        Regs {
            nid: self.nid.wrapping_add(1),
            ..self
        }
    }

    // The cancels that were asked take effect.
    #[tactic(auto, unfolding(crate::specs::Events::cancelled))]
    pub fn cancelled(self) -> Regs
        ensures { result ≡ cancelled self }
    {
        self.naks_dropped(self.transmit.oldest & CANCEL != 0)
            .relieved(Way::Transmit)
            .relieved(Way::Receive)
    }

    // The transmit ends, acknowledged or not.
    #[tactic(auto, unfolding(crate::specs::Events::sent))]
    pub fn sent(self, acknowledged: bool) -> Regs
        ensures { result ≡ sent self acknowledged }
    {
        self.ended(Way::Transmit, acknowledged).naks_dropped(true)
    }

    // An enquiry of this card's own that no packet followed: NAK answered it, or nobody did.
    #[tactic(auto, unfolding(crate::specs::Events::enquired))]
    pub fn enquired(self, nak: bool) -> Regs
        ensures { result ≡ enquired self nak }
    {
        if nak {
            return self.nak_counted().heard(false);
        }
        self.sent(false)
    }

    // The receive ends.
    #[tactic(auto, unfolding(crate::specs::Events::received))]
    pub fn received(self) -> Regs
        ensures { result ≡ received self }
    {
        self.ended(Way::Receive, false)
    }

    // A transmit waits, or the receiver is enabled.
    #[tactic(auto, unfolding(crate::specs::Events::transmitting, crate::specs::Events::receiving))]
    pub fn waiting(self, way: Way) -> bool
        ensures { result ≡ waits way self }
    {
        self.side(way).waiting(way)
    }

    #[tactic(auto, unfolding(crate::specs::Events::takes_broadcasts))]
    pub fn takes_broadcasts(self) -> bool
        ensures { result ≡ takes_broadcasts self }
    {
        self.awake() & self.waiting(Way::Receive) & (self.receive.oldest & BROADCASTS != 0)
    }

    // The page of the oldest.
    #[tactic(auto, unfolding(crate::specs::Events::transmit_page, crate::specs::Events::receive_page))]
    pub fn page(self, way: Way) -> usize
        ensures { result ≡ page way self }
    {
        usize::from(self.side(way).queue.oldest % 4)
    }
}
