// Document 01, "Order forms and the lap": the lap call.
ghost use Rattle.std.specs.Prelude.{◌≡◌, true, ◌+◌, ◌≤◌, length, take, drop, IfOk};
ghost use Rattle.told.specs.Refusals.{number};
ghost use Rattle.line.specs.Answers.{said};
ghost use Rattle.table.specs.Rows.{row_start};
ghost use Rattle.table.specs.Network.{LOST, phase, shape};
ghost use Rattle.desk.specs.Lap.{online, nodes, invitation, invitations, takers, answers, after, lap_steps, lap_number, lapping, walked_count, walked_list, walked_total, lapped, net_after_lap, list_after_lap, nobody, Walks};

use line::step::{Answer, step_on};
use table::network::{LOST, ROWS, phase, regs_at, rows, shape};
use table::walk::Rows;
use told::refusals::Refusal;

// A row that took the token: its node ID, its number from 0, and the invitations since the holder before.
#[derive(Clone, Copy, Debug, Default, PartialEq, Eq)]
pub struct Taker {
    pub id: u8,
    pub row: u8,
    pub invitations: u16,
}

// A lap that was run: the total, and the takers, the first n of the list; nobody has the entries past n.
// Kept: the count beside the list, since memory is fixed and `Walks` says of the entries past n that nobody has them.
#[derive(Clone, Copy, Debug, PartialEq, Eq)]
pub struct Walked {
    pub total: u16,
    pub n: usize,
    pub list: [Taker; ROWS],
}

// The answers that tell of an invitation.
fn invitation(answer: Answer) -> bool
    ensures { result ≡ invitation (said answer) }
{
    matches!(answer, Answer::Passed(_) | Answer::Unanswered(_))
}

// The nodes on line among the first n rows.
fn online(net: &[u8], n: usize) -> usize
    requires { row_start net.now n ≤ length net.now }
    ensures { (result ≡ online net.now n) × (result ≤ n) }
{
    Rows::first(net, n)
        .filter(|row| card::row::load(row).on_line())
        .count()
}

// SHAPE, BUSY, ALONE and ROOM, in a list of `room` entries.
#[tactic(auto, using(table::proofs::Access::Handed::least_behind, crate::proofs::Lapping::LapNumber::all_behind, told::proofs::Told::Results::handed_number, told::proofs::Told::Results::stands), unfolding(crate::specs::Lap::lap_number, crate::specs::Lap::lap_refusals))]
fn may_lap(net: &[u8], room: usize) -> Result<(), Refusal>
    ensures { number result ≡ lap_number net.now room }
{
    Refusal::Shape.when(!shape(net))?;
    let nodes = online(net, rows(net));
    Refusal::Busy.when(phase(net) != LOST)?;
    Refusal::Alone.when(nodes < 2)?;
    Refusal::Room.when(room < nodes)
}

// A list of takers with nobody in it yet.
pub fn nobody() -> [Taker; ROWS]
    ensures { result ≡ nobody }
{
    [Taker::default(); ROWS]
}

// Fault-free steps from LOST until the first holder has the token again.
// Kept: SHAPE is asked of the lent bytes, as `step_on` asks it.
fn run(net: &mut [u8]) -> Walked
    requires shaped { shape net.old ≡ true }
    requires lost { phase net.old ≡ LOST }
    requires two { 2 ≤ nodes net.old }
    ensures total { result.total ≡ invitations (answers (lap_steps net.old) net.old) }
    ensures count { result.n ≡ nodes net.old }
    ensures list { take result.n result.list ≡ takers net.old 0 (answers (lap_steps net.old) net.old) }
    ensures bytes { net.new ≡ after (lap_steps net.old) net.old }
    ensures rest { drop result.n result.list ≡ drop result.n nobody }
{
    let first = step_on(net, 0).value();
    let mut walk = Walked {
        total: 0,
        n: 0,
        list: nobody(),
    };
    let mut since = 0;
    loop {
        let answer = step_on(net, 0);
        let sent = u16::from(invitation(answer));
        since += sent;
        walk.total += sent;
        if let Answer::Passed(row) = answer {
            walk.list[walk.n] = Taker {
                id: regs_at(net, row).id,
                row: row as u8,
                invitations: since,
            };
            walk.n += 1;
            since = 0;
            if row == first {
                return walk;
            }
        }
    }
}

// The lap, for a list of `room` entries.
#[tactic(auto, using(crate::proofs::Lapping::LapDone::refused, crate::proofs::Lapping::LapDone::shape_behind, crate::proofs::Lapping::LapDone::lost_behind, crate::proofs::Lapping::LapDone::two_behind, crate::proofs::Lapping::LapDone::run, crate::proofs::Lapping::LapDone::total))]
pub fn walk(net: &mut [u8], room: usize) -> Result<Walked, Refusal>
    ensures walks { Walks net.old room (walked_count result) (walked_list result) (lapping (walked_total result)) net.new }
    ensures total { IfOk result (λ w. w.total ≡ 256 + nodes net.old) }
{
    may_lap(net, room)?;
    Ok(run(net))
}

// The lap call: fault-free steps from LOST until the first holder has the token again, and an entry for each taker; the
// entries past them stay.
pub fn lap(net: &mut [u8], takers: &mut [Taker]) -> Result<u16, Refusal>
    ensures value { (lapping result ≡ lapped net.old (length takers.old))
        × (net.new ≡ net_after_lap net.old (length takers.old))
        × (takers.new ≡ list_after_lap net.old takers.old) }
    ensures total { IfOk result (λ total. total ≡ 256 + nodes net.old) }
{
    let walk = walk(net, takers.len())?;
    takers[..walk.n].copy_from_slice(&walk.list[..walk.n]);
    Ok(walk.total)
}
