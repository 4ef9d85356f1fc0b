// A line is answered. Where a write fails, its error is handed back, and the answer ends there; the network is as the call
// left it, as each clause on its bytes says.
ghost use Rattle.std.specs.Prelude.{◌≡◌, ◌≤◌, length, IfOk, IfErr, MatchResult};
ghost use Rattle.prompt.specs.Input.{LINE, text_of};
ghost use Rattle.bench.specs.Requests.{NET, Fits};
ghost use Rattle.bench.specs.Turns.{net_after_call, size_after_call, net_after_line, size_after_line};

use crate::calls;
use crate::requests::{Call, asked};
use print::gather::Output;
use prompt::answers;
use prompt::answers::{Mistake, tell};
use prompt::input::{Input, Line};
use std::io;
use std::marker::Model;
use words::words::word;

// The bytes that may be lent.
pub(crate) const NET: usize = 66400;

// The bytes, of which the first `size` are lent.
#[derive(Drop)]
pub(crate) struct Lent {
    // Kept: no heap; the length changes as the lines say, and bytes beyond it keep their values.
    bytes: [u8; NET],
    size: usize,
}

impl Model for Lent {
    ghost use Rattle.std.specs.Prelude.{◌≤◌};
    ghost use Rattle.bench.specs.Requests.{NET};
    ghost use Rattle.bench.specs.Turns.{Lending, lending};

    ghost Value = { Lending };

    ghost view = { λ l. lending l.bytes l.size };

    ghost invariant = { λ l. l.size ≤ NET };
}

fn peek<P: Print>(out: &mut Output<P>, net: &[u8], at: usize, count: usize) -> io::Result<()> {
    if !calls::inside(net, at, count) {
        return tell(out, Mistake::Outside);
    }
    answers::hex(out, &net[at..at + count])
}

fn sum<P: Print>(out: &mut Output<P>, net: &[u8]) -> io::Result<()> {
    out.begin();
    out.text(b"DONE ")?;
    out.sixteen(prompt::sums::sum(net))?;
    out.end()
}

fn data<P: Print>(out: &mut Output<P>, net: &[u8], row: usize, page: usize) -> io::Result<()> {
    match table::calls::may_read_data(net, row, page) {
        Ok(()) => answers::hex(out, table::calls::page_data(net, row, page)),
        Err(refusal) => tell(out, refusal),
    }
}

#[tactic(auto, using(crate::proofs::Checks::well_formed_lem))]
fn show<P: Print>(out: &mut Output<P>, net: &[u8]) -> io::Result<()> {
    match calls::check(net) {
        Ok(()) => prompt::show::show(out, net),
        Err(refusal) => tell(out, refusal),
    }
}

// A call is made in the lent bytes, and answered.
fn answer<P: Print>(out: &mut Output<P>, net: &mut [u8], line: &[u8], call: Call) -> io::Result<()>
    requires { length line.now ≤ LINE }
    ensures { net.new ≡ net_after_call call line.now net.old }
{
    match call {
        Call::Size(_) => tell(out, ()),
        Call::Peek { at, count } => peek(out, net, at, count),
        Call::Sum => sum(out, net),
        Call::Check => tell(out, calls::check(net)),
        Call::Interrupt { row } => tell(out, table::calls::interrupt(net, row)),
        Call::Data { row, page } => data(out, net, row, page),
        Call::Show => show(out, net),
        Call::Help => prompt::help::help(out),
        Call::Poke { at } => tell(out, calls::poke(net, at, word(line, 2))),
        Call::Fresh { rows } => tell(out, table::calls::fresh(net, rows)),
        Call::Load => tell(out, calls::load(net, word(line, 1))),
        Call::Read { row, register } => tell(out, table::calls::read(net, row, register)),
        Call::Write {
            row,
            register,
            value,
        } => tell(out, calls::write(net, row, register, value)),
        Call::Reset { row } => tell(out, table::calls::reset(net, row)),
        Call::Timer { row } => tell(out, table::calls::timer(net, row)),
        Call::Step { fault } => tell(out, line::step::step(net, fault)),
        Call::Lap { room } => calls::lap(out, net, room),
    }
}

// The current length after a call.
fn size_after(call: Call, size: usize) -> usize
    requires { (size ≤ NET) × Fits call }
    ensures { (result ≡ size_after_call call size) × (result ≤ NET) }
{
    match call {
        Call::Size(n) => n,
        _ => size,
    }
}

impl Lent {
    // Nothing is lent yet.
    pub(crate) fn new() -> Lent {
        Lent {
            bytes: [0; NET],
            size: 0,
        }
    }

    // A line is answered, in the bytes that are lent.
    #[tactic(auto, unfolding(crate::specs::Turns::net_after_line, crate::specs::Turns::size_after_line, crate::specs::Turns::net_after))]
    fn turn<P: Print>(&mut self, out: &mut Output<P>, line: &[u8]) -> io::Result<()>
        requires { length line.now ≤ LINE }
        ensures size { MatchResult result (λ u. self.new.size ≡ size_after_line line.now self.old.size) (λ e. self.new.size ≡ self.old.size) }
        ensures bytes { self.new.bytes ≡ net_after_line line.now self.old.size self.old.bytes }
    {
        match asked(line) {
            Ok(call) => {
                answer(out, &mut self.bytes[..self.size], line, call)?;
                self.size = size_after(call, self.size);
                Ok(())
            }
            Err(mistake) => tell(out, mistake),
        }
    }

    // What was taken is answered; a line that did not fit leaves all as it was.
    pub(crate) fn answered<P: Print>(
        &mut self,
        out: &mut Output<P>,
        input: &Input,
        taken: Result<Line, Mistake>,
    ) -> io::Result<()>
        ensures bytes { IfOk taken (λ line. self.new.bytes ≡ net_after_line (text_of input.now.held line.from line.end) self.old.size self.old.bytes) }
        ensures size { IfOk taken (λ line. MatchResult result (λ u. self.new.size ≡ size_after_line (text_of input.now.held line.from line.end) self.old.size) (λ e. self.new.size ≡ self.old.size)) }
        ensures mistaken { IfErr taken (λ m. (self.new.bytes ≡ self.old.bytes) × (self.new.size ≡ self.old.size)) }
    {
        match taken {
            Ok(line) => self.turn(out, input.text(line)),
            Err(mistake) => tell(out, mistake),
        }
    }
}
