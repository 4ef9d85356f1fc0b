// The program `lap` (document 01, "Order forms and the lap"): reads an order on standard input, loads it, runs a lap
// and prints the takers in the order in which they took the token; or the refusal's number, with the record that it
// names (C-12), and on standard error what is wrong.
#![tactic(auto)]

mod clerk;

ghost use Rattle.std.specs.Prelude.{◌≡◌, length, ◌+◌, ◌*◌, ◌≤◌, IfOk};
ghost use Rattle.table.specs.Network.{row_limit};
ghost use Rattle.table.specs.Calls.{exact_length};
ghost use Rattle.orders.specs.Form.{record_bytes};
ghost use Rattle.desk.specs.Lap.{lapping, lapped, net_after_lap, list_after_lap, nobody};

use desk::laps::{Taker, nobody};
use orders::check::Bad;
use orders::form::{RECORD, name_at, records};
use std::io;
use std::io::Read;
use table::calls::{LONGEST, exact_length};
use table::network::ROWS;
use told::refusals::Refusal;

// A byte more than the longest order, so that a longer one is seen to be too long.
const ORDER: usize = RECORD * ROWS + 1;

// The number, and the record where one is named.
fn refuse(rt: &impl Print, bad: Bad) -> io::Result<()> {
    print::text(rt, b"REFUSED")?;
    print::number(rt, usize::from(bad.refusal.number()))?;
    if let Some(record) = bad.record {
        print::number(rt, record)?;
    }
    print::text(rt, b"\n")
}

// A taker's line: its ID, its row from 0, the invitations since the holder before, its station.
fn taker(rt: &impl Print, order: &[u8], t: Taker) -> io::Result<()> {
    print::decimal(rt, t.id as usize)?;
    print::number(rt, t.row as usize)?;
    print::number(rt, t.invitations as usize)?;
    print::text(rt, b" ")?;
    print::text(rt, name_at(order, t.row as usize))?;
    print::text(rt, b"\n")
}

// The invitations of a lap, and its takers.
fn takers(rt: &impl Print, order: &[u8], total: u16, list: &[Taker]) -> io::Result<()> {
    print::text(rt, b"LAP")?;
    print::number(rt, list.len())?;
    print::text(rt, b" NODES")?;
    print::number(rt, total as usize)?;
    print::text(rt, b" INVITATIONS\n")?;
    for &t in list {
        taker(rt, order, t)?;
    }
    Ok(())
}

// The lap call, lent a list of ROWS entries with nobody in it: what it answers, and the list.
fn lap_list(net: &mut [u8]) -> (Result<u16, Refusal>, [Taker; ROWS])
    ensures answer { lapping result.0 ≡ lapped net.old row_limit }
    ensures bytes { net.new ≡ net_after_lap net.old row_limit }
    ensures list { result.1 ≡ list_after_lap net.old nobody }
{
    let mut list = nobody();
    let answer = desk::laps::lap(net, &mut list);
    (answer, list)
}

// The order is loaded into a network of its length, which is lent, and its lap is run. The n records of the order are n nodes
// on line: the first n entries of the list are their takers.
fn answer(rt: &impl Print, err: &impl Print, order: &[u8], net: &mut [u8]) -> io::Result<()>
    requires order_len_bound { length order.now ≤ record_bytes * row_limit + 1 }
    requires row_limit_in_bounds { exact_length row_limit ≤ length net.old }
{
    let n = records(order);
    let lent = &mut net[0..exact_length(n)];
    if let Err(bad) = desk::loading::load(order, lent) {
        refuse(rt, bad)?;
        return clerk::unfit(err, order, bad);
    }
    let (answer, list) = lap_list(lent);
    match answer {
        Ok(total) => takers(rt, order, total, &list[0..n]),
        Err(refusal) => {
            // An order that was loaded is refused for one record alone, since the list has room (`TheLoading.lap`).
            refuse(rt, Bad::from(refusal))?;
            clerk::alone(err)
        }
    }
}

// Reads until the buffer is full or the input ends. It hands back how many bytes were read; where a read fails, its error,
// and the buffer has what was read before.
// Kept: the library's read_exact refuses an input that ends early, and does not say how much came.
fn read_full(stdin: &mut impl Read, buffer: &mut [u8]) -> io::Result<usize>
    ensures { IfOk result (λ n. n ≤ length buffer.new) }
{
    let mut done = 0;
    while done < buffer.len() {
        let n = stdin.read(&mut buffer[done..])?;
        if n == 0 {
            break;
        }
        done += n;
    }
    Ok(done)
}

fn main(rt: HostRuntime) -> io::Result<()> {
    let mut order = [0u8; ORDER];
    let mut net = [0u8; LONGEST];
    let read = read_full(&mut rt.stdin(), &mut order)?;
    answer(&rt, &rt.stderr(), &order[..read], &mut net)
}
