// What is wrong with an order, as one sentence for the clerk on standard error (C-12): the record and its station, what
// the record has, and what it has to have. Where a write fails, its error is handed back, and the sentence ends there.
ghost use Rattle.std.specs.Prelude.{◌+◌, ◌*◌, ◌≤◌, length, IfSome};
ghost use Rattle.orders.specs.Form.{record_bytes};

use orders::check::Bad;
use orders::form::{RECORD, flags_at, id_at, name_at, printable, record_of};
use print::{decimal, text};
use std::io;
use table::network::ROWS;
use told::refusals::Refusal;

fn byte(err: &impl Print, b: u8) -> io::Result<()> {
    decimal(err, usize::from(b))
}

// The program reads no more than a byte past the longest order.
fn length(err: &impl Print, order: &[u8]) -> io::Result<()> {
    text(err, b"the order has ")?;
    decimal(err, order.len())?;
    text(err, b" bytes")?;
    if RECORD * ROWS < order.len() {
        text(err, b" or more")?;
    }
    text(err, b"; it has to be 1 to ")?;
    decimal(err, ROWS)?;
    text(err, b" records of ")?;
    decimal(err, RECORD)?;
    text(err, b" bytes")
}

// A byte that does not print or, where all do, a space that is the first.
fn name(err: &impl Print, name: &[u8]) -> io::Result<()> {
    let Some(i) = name.iter().position(|&b| !printable(&[b])) else {
        return text(
            err,
            b"the name begins with a space; it has to begin with another character",
        );
    };
    text(err, b"byte ")?;
    decimal(err, i + 1)?;
    text(err, b" of the name is ")?;
    byte(err, name[i])?;
    text(err, b"; it has to be 32 to 126, a character that prints")
}

// Record k of an order, from 0.
// Kept: it derives no more, since nothing compares or prints one.
#[derive(Clone, Copy)]
struct Record<'a> {
    order: &'a [u8],
    k: usize,
    ghost whole: { record_bytes * k + record_bytes ≤ length order.now },
}

impl Record<'_> {
    // Its number from 1, with its station's name where that can be printed.
    fn named(self, err: &impl Print) -> io::Result<()> {
        text(err, b"record ")?;
        decimal(err, self.k + 1)?;
        let name = name_at(self.order, self.k);
        if !name.is_empty() & printable(name) {
            text(err, b", ")?;
            text(err, name)?;
        }
        Ok(())
    }

    fn flags(self, err: &impl Print) -> io::Result<()> {
        text(err, b"the flags are ")?;
        byte(err, flags_at(self.order, self.k))?;
        text(err, b"; they have to be 0 to 3")
    }

    // Two records have the ID: the first that has it is named.
    fn twice(self, err: &impl Print) -> io::Result<()> {
        let id = id_at(self.order, self.k);
        text(err, b"the node ID is ")?;
        byte(err, id)?;
        text(err, b", as in ")?;
        let first = record_of(self.order, id, self.k).unwrap_or(self.k);
        Record {
            order: self.order,
            k: first,
        }
        .named(err)?;
        text(err, b"; node IDs have to differ")
    }

    fn faulty(self, err: &impl Print, refusal: Refusal) -> io::Result<()> {
        self.named(err)?;
        text(err, b": ")?;
        match refusal {
            Refusal::Mark => text(err, b"the mark is not OR, 4F 52 in hex"),
            Refusal::OrderId => text(err, b"the node ID is 0; it has to be 1 to 255"),
            Refusal::Flags => self.flags(err),
            Refusal::Name => name(err, name_at(self.order, self.k)),
            Refusal::Twice => self.twice(err),
            // No other names a record: LENGTH and ROOM name none, and a record is refused for the five above alone (C-12).
            _ => Ok(()),
        }
    }
}

// LENGTH alone names no record here: the program lends a network of the order's length, so that it is never ROOM.
pub(crate) fn unfit(err: &impl Print, order: &[u8], bad: Bad) -> io::Result<()>
    requires { IfSome bad.record (λ k. record_bytes * k ≤ length order.now) }
{
    match bad.record {
        None => length(err, order)?,
        Some(record) => {
            let k = record - 1;
            Record { order, k }.faulty(err, bad.refusal)?
        }
    }
    text(err, b"\n")
}

pub(crate) fn alone(err: &impl Print) -> io::Result<()> {
    text(
        err,
        b"the order has one record; a lap needs two nodes on line\n",
    )
}
