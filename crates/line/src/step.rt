// Document 01, "One line step".
ghost use Rattle.std.specs.Prelude.{◌≡◌, true, ◌<◌};
ghost use Rattle.table.specs.Network.{holder, shape};
ghost use Rattle.told.specs.Refusals.{number};
ghost use Rattle.line.specs.Answers.{said, answered};
ghost use Rattle.line.specs.Traffic.{HasRow};
ghost use Rattle.line.specs.Step.{answer_value, lost_turn, pass_turn, step_turn, step_number, step};

use crate::passes::{Event, happen, on_row};
use crate::traffic::{Outcome, taken};
use table::network::{
    LOST, PASS, TAKEN, holder, node_of, phase, regs_at, rows, shape, top_id, turn,
};
use told::refusals::Refusal;

// The fault that leaves no token: "3 invitation destroyed".
// Kept: a fault is the number that a host passes, as `Step.destroyed` takes it.
const DESTROYED: usize = 3;

// What a step answers. A row is given by its number, from 0; `Unanswered` names the ID that was invited.
#[derive(Clone, Copy, Debug, PartialEq, Eq)]
pub enum Answer {
    Quiet,
    Recovered(usize),
    Passed(usize),
    Unanswered(u8),
    TokenLost,
    Held(Outcome),
}

impl Answer {
    // The row, or the ID, that the answer names; of Held the row that answered the enquiry.
    // Kept: 0 where it names none, as `Step.answer_value` has it and the lap's laws read it.
    pub fn value(self) -> usize
        ensures { result ≡ answer_value (said self) }
    {
        match self {
            Answer::Recovered(row) | Answer::Passed(row) => row,
            Answer::Unanswered(id) => usize::from(id),
            Answer::Held(
                Outcome::Nak(row) | Outcome::Delivered(row, _) | Outcome::Unacknowledged(row, _, _),
            ) => row,
            Answer::Quiet | Answer::TokenLost | Answer::Held(_) => 0,
        }
    }
}

// LOST: the on-line row of highest ID, if anybody is on line, holds in PASS.
// Kept: SHAPE is asked of the lent bytes, here and below, as `step_on` asks it.
#[tactic(auto, using(crate::proofs::Rooms::rooms, crate::proofs::Steps::Holders::highest_found), unfolding(crate::specs::Step::lost_turn))]
fn lost(net: &mut [u8]) -> Answer
    requires { shape net.old ≡ true }
    ensures answer { said result ≡ (lost_turn net.old).answer }
    ensures bytes { net.new ≡ (lost_turn net.old).after }
{
    let n = rows(net);
    let Some(top) = top_id(net, n) else {
        return Answer::Quiet;
    };
    // The highest ID on line is that of a row; n is no row, so that none is excepted.
    let first = node_of(net, top, n, n).unwrap();
    happen(net, Event::Recovery);
    turn(net, PASS, first as u8);
    Answer::Recovered(first)
}

// PASS: an invitation goes to the holder's NID, unless fault 3 destroys it.
#[tactic(auto, using(crate::proofs::Rooms::rooms), unfolding(crate::specs::Step::pass_turn, crate::specs::Traffic::on_row))]
fn pass(net: &mut [u8], fault: usize) -> Answer
    requires { HasRow net.old (holder net.old) }
    ensures answer { said result ≡ (pass_turn net.old fault).answer }
    ensures bytes { net.new ≡ (pass_turn net.old fault).after }
{
    let h = holder(net);
    if fault == DESTROYED {
        happen(net, Event::Message(h, false));
        turn(net, LOST, 0);
        return Answer::TokenLost;
    }
    let id = regs_at(net, h).nid;
    let taker = node_of(net, id, h, rows(net));
    happen(net, Event::Message(h, true));
    let Some(t) = taker else {
        on_row(net, h, |g| g.risen_nid());
        return Answer::Unanswered(id);
    };
    happen(net, Event::Taken(id, t));
    turn(net, TAKEN, t as u8);
    Answer::Passed(t)
}

// A step of a network that SHAPE does not refuse. It serves whoever has tested SHAPE already.
// Kept: a fault is a number, since any may be passed; one above 3 is VALUE (`Step.step_refusals`). A phase is a byte, as
// `table::network::phase` gives it.
#[tactic(auto, using(crate::proofs::Rooms::rooms, crate::proofs::Steps::Stepped::held_row), unfolding(crate::specs::Step::step_turn))]
pub fn step_on(net: &mut [u8], fault: usize) -> Answer
    requires { shape net.old ≡ true }
    ensures answer { said result ≡ (step_turn net.old fault).answer }
    ensures bytes { net.new ≡ (step_turn net.old fault).after }
{
    match phase(net) {
        LOST => lost(net),
        PASS => pass(net, fault),
        _ => {
            let h = holder(net);
            let outcome = taken(net, h, fault);
            turn(net, PASS, h as u8);
            Answer::Held(outcome)
        }
    }
}

// SHAPE and VALUE.
#[tactic(auto, using(told::proofs::Told::Results::handed_number, told::proofs::Told::Results::stands), unfolding(crate::specs::Step::step_number, crate::specs::Step::step_refusals))]
fn may_step(net: &[u8], fault: usize) -> Result<(), Refusal>
    ensures { number result ≡ step_number net.now fault }
{
    Refusal::Shape.when(!shape(net))?;
    Refusal::Value.when(3 < fault)
}

// One line step.
#[tactic(auto, using(crate::proofs::Steps::Stepped::step_shape), unfolding(crate::specs::Step::step))]
pub fn step(net: &mut [u8], fault: usize) -> Result<Answer, Refusal>
    ensures answer { answered result ≡ (step net.old fault).answer }
    ensures bytes { net.new ≡ (step net.old fault).after }
{
    may_step(net, fault)?;
    Ok(step_on(net, fault))
}
