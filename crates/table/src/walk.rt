// Document 01, "The saved network": the rows one after the other, each where the one before it ends.
ghost use Rattle.std.specs.Prelude.{◌≡◌, ℕ, ◌-◌, ◌≤◌, ◌<◌, length};
ghost use Rattle.std.specs.Fork.{AcceptsAt, ChangesAt};
ghost use Rattle.std.specs.Iterator.{at_most};
ghost use Rattle.table.specs.Rows.{row_start, row_at};
ghost use Rattle.table.specs.Walk.{Walk, walk, next_row, EachChanged};

use crate::network::{HEADER, row_end, row_from};
use std::marker::Model;

// The rows of a network that are still to come.
#[derive(Drop)]
pub struct Rows<'a> {
    net: &'a [u8],
    at: usize,
    passed: usize,
    count: usize,
}

impl<'a> Model for Rows<'a> {
    ghost Value = { Walk };

    ghost view = { λ s. record { place = s.net.ref_ptr; net = s.net.now; passed = s.passed; count = s.count } };

    ghost invariant = { λ s. (row_start s.net.now s.count ≤ length s.net.now) × (s.passed ≤ s.count) × (s.at ≡ row_start s.net.now s.passed) };
}

impl<'a> Rows<'a> {
    // The first n rows.
    // Kept: n is given and not read from the header, since the search among the rows before one takes fewer.
    #[tactic(auto, unfolding(crate::specs::Rows::row_start))]
    pub fn first(net: &'a [u8], n: usize) -> Rows<'a>
        requires { row_start net.now n ≤ length net.now }
        ensures { result ≡ walk net.entry.ref_ptr net.now n }
    {
        Rows {
            net,
            at: HEADER,
            passed: 0,
            count: n,
        }
    }
}

impl<'a> Iterator for Rows<'a> {
    type Item = &'a [u8];

    ghost next_gives = { next_row };

    ghost remaining = { λ s. at_most (s.count - s.passed) };

    fn next(&mut self) -> Option<&'a [u8]> {
        if self.passed == self.count {
            return None;
        }
        let row = row_from(self.net, self.at);
        self.at += row.len();
        self.passed += 1;
        Some(row)
    }
}

// One row is lent to f.
fn lend<F: Fn(usize, &mut [u8])>(f: &F, k: usize, row: &mut [u8])
    requires { AcceptsAt F.Fn f.now k row.old }
    ensures { ChangesAt F.Fn f.now k row.old row.new }
{
    f(k, row);
}

// Each of the first n rows is lent to f, with its number.
// Kept: that the rows stand in the lent bytes is a `requires`, as in network.rt; k is the row's number, which f is told.
pub fn each_row_mut<F: Fn(usize, &mut [u8])>(net: &mut [u8], n: usize, f: F)
    requires room { row_start net.old n ≤ length net.old }
    requires accepts { (k : ℕ) → k < n → AcceptsAt F.Fn f k (row_at net.old k) }
    ensures { EachChanged (ChangesAt F.Fn f) net.old net.new n }
{
    let mut a = HEADER;
    for k in 0..n {
        let e = row_end(net, a);
        lend(&f, k, &mut net[a..e]);
        a = e;
    }
}
