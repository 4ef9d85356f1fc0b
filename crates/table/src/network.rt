// Document 01, "The saved network": the header, a row's part, and the test SHAPE. A row starts where the one before it ends.
// Kept: the header and a row are parts of lent bytes, and that they stand in them is a `requires`, not an invariant: the
// public ones are named in docs/STATEMENTS.md with the bytes that they take, and the private ones ask the same of theirs.
ghost use Rattle.std.specs.Prelude.{◌≡◌, suc, ◌+◌, ◌≤◌, ◌<◌, length, take, drop};
ghost use Rattle.places.specs.Places.{onward};
ghost use Rattle.card.specs.Row.{register_bytes, row_size, Whole, put_regs};
ghost use Rattle.table.specs.Folds.{below, not_zero};
ghost use Rattle.table.specs.Rows.{header_bytes, row_start, row_at, set_row, rows_end};
ghost use Rattle.table.specs.Network.{rows, phase, holder, turned, regs_at, node_of, top_id, header_fits, rows_fit, ids_differ, holder_fits, shape};

use crate::walk::Rows;
use registers::regs::Regs;

// Kept: public, for whoever asks whether a header is there before `rows`, `phase`, `holder` or `turn`.
pub const HEADER: usize = 16;

pub const ROWS: usize = 60;

// Kept: a phase is a byte: `phase` and `turn` give and take any, as docs/STATEMENTS.md has them.
pub const LOST: u8 = 0;

pub const PASS: u8 = 1;

pub const TAKEN: u8 = 2;

// The fixed bytes that a network begins with.
pub(crate) const MARK: [u8; 2] = *b"\x41\x4e";

// Kept: public, and called by nobody now; OfTable.wide of promises holds its contract.
pub fn wide(x: u8) -> usize
    ensures { (result ≡ x) × (result < 256) }
{
    usize::from(x)
}

// The number of rows that the header names.
pub fn rows(net: &[u8]) -> usize
    requires { header_bytes ≤ length net.now }
    ensures { (result ≡ rows net.now) × (result < 256) }
{
    usize::from(net[3])
}

pub fn phase(net: &[u8]) -> u8
    requires { header_bytes ≤ length net.now }
    ensures { result ≡ phase net.now }
{
    net[4]
}

// The row that holds; 0 in LOST.
pub fn holder(net: &[u8]) -> usize
    requires { header_bytes ≤ length net.now }
    ensures { (result ≡ holder net.now) × (result < 256) }
{
    usize::from(net[5])
}

// Where row k starts: the rows before it are walked over.
#[tactic(auto, using(crate::proofs::Rows::Starts::start_zero, crate::proofs::Rows::Walks::walk_room, crate::proofs::Rows::Walks::walk_next))]
pub fn row_start(net: &[u8], k: usize) -> usize
    requires { row_start net.now (suc k) ≤ length net.now }
    ensures { result ≡ row_start net.now k }
{
    let mut a = HEADER;
    for _ in 0..k {
        a = row_end(net, a);
    }
    a
}

// Where the row ends that starts at a.
// Kept: who writes a row lends net[a..e] itself: a function that returns a part of a slice as `&mut` was tried, and its
// clause on what becomes of the network gets no proof.
pub fn row_end(net: &[u8], a: usize) -> usize
    requires { a + row_size (drop a net.now) ≤ length net.now }
    ensures { (result ≡ a + row_size (drop a net.now)) × (result ≤ length net.now) }
{
    a + card::row::size(&net[a..])
}

// The row that starts at a.
// Kept: public, and called in this crate alone; OfTable.row_from of promises holds its contract.
#[tactic(auto, using(crate::proofs::Rows::Walks::lent, places::proofs::Places::onward_part))]
pub fn row_from(net: &[u8], a: usize) -> &[u8]
    requires { a + row_size (drop a net.now) ≤ length net.now }
    ensures bytes { result.now ≡ take (row_size (drop a net.now)) (drop a net.now) }
    ensures size { (Whole result.now) × (register_bytes ≤ length result.now) × (a + length result.now ≤ length net.now) }
    ensures place { result.ref_ptr ≡ onward net.entry.ref_ptr a }
{
    let e = row_end(net, a);
    &net[a..e]
}

// A row's part of the network.
#[tactic(auto, using(crate::proofs::Rows::Walks::lent))]
pub fn row_at(net: &[u8], k: usize) -> &[u8]
    requires { row_start net.now (suc k) ≤ length net.now }
    ensures bytes { result.now ≡ row_at net.now k }
    ensures size { (Whole result.now) × (register_bytes ≤ length result.now) }
    ensures place { result.ref_ptr ≡ onward net.entry.ref_ptr (row_start net.now k) }
{
    row_from(net, row_start(net, k))
}

pub fn regs_at(net: &[u8], k: usize) -> Regs
    requires { row_start net.now (suc k) ≤ length net.now }
    ensures { result ≡ regs_at net.now k }
{
    card::row::load(row_at(net, k))
}

// One row is given other registers.
#[tactic(auto, using(crate::proofs::Rows::Walks::lent))]
pub fn put_regs(net: &mut [u8], k: usize, g: Regs)
    requires { row_start net.old (suc k) ≤ length net.old }
    ensures { net.new ≡ set_row net.old k (put_regs (row_at net.old k) g) }
{
    let a = row_start(net, k);
    let e = row_end(net, a);
    card::row::store(&mut net[a..e], g);
}

// The phase and the holder are written.
#[tactic(auto, unfolding(crate::specs::Network::turned))]
pub fn turn(net: &mut [u8], phase: u8, holder: u8)
    requires { header_bytes ≤ length net.old }
    ensures { net.new ≡ turned net.old phase holder }
{
    net[4] = phase;
    net[5] = holder;
}

// The on-line row with this ID, other than row `except`, among the first n.
pub fn node_of(net: &[u8], id: u8, except: usize, n: usize) -> Option<usize>
    requires { row_start net.now n ≤ length net.now }
    ensures { result ≡ below n (node_of net.now id except n) }
{
    for (k, row) in Rows::first(net, n).enumerate() {
        let g = card::row::load(row);
        if g.on_line() & (g.id == id) & (k != except) {
            return Some(k);
        }
    }
    None
}

// The highest ID on line.
// Kept: a fold from 0, as Network.top_id is one; `max` of the IDs was tried, and its proof did not close. A row on line
// has an ID other than 0 (Fit.awake).
#[tactic(auto, using(crate::proofs::Rows::Walk::turns, crate::proofs::Online::Nodes::top_id_none, crate::proofs::Online::Nodes::top_id_step))]
pub fn top_id(net: &[u8], n: usize) -> Option<u8>
    requires { row_start net.now n ≤ length net.now }
    ensures { result ≡ not_zero (top_id net.now n) }
{
    let mut top = 0;
    for row in Rows::first(net, n) {
        let g = card::row::load(row);
        top = bits::choice::choose(g.on_line() & (top < g.id), g.id, top);
    }
    if top == 0 { None } else { Some(top) }
}

// The bytes end where the first n rows end.
// Kept: no iterator of rows, since `Rows` wants them to lie in the bytes, and any bytes behind a header may be asked
// about: each row is looked for before it is passed over.
#[tactic(auto, using(crate::proofs::Rows::Starts::start_zero, crate::proofs::Rows::Walks::rest_size, crate::proofs::Rows::Walks::walk_next))]
fn rows_end(net: &[u8], n: usize) -> bool
    requires { header_bytes ≤ length net.now }
    ensures { result ≡ rows_end net.now n }
{
    let mut a = HEADER;
    for _ in 0..n {
        let size = card::row::size(&net[a..]);
        if net.len() - a < size {
            return false;
        }
        a += size;
    }
    net.len() == a
}

fn header_fits(net: &[u8]) -> bool
    requires { header_bytes ≤ length net.now }
    ensures { result ≡ header_fits net.now }
{
    let n = rows(net);
    net.starts_with(&MARK)
        & (net[2] == 1)
        & (0 < n)
        & (n <= ROWS)
        & (phase(net) < 3)
        & card::row::all_zero(&net[6..HEADER])
        & rows_end(net, n)
}

#[tactic(auto, unfolding(crate::specs::Network::rows_fit))]
fn rows_fit(net: &[u8], n: usize) -> bool
    requires { row_start net.now n ≤ length net.now }
    ensures { result ≡ rows_fit net.now n }
{
    Rows::first(net, n).all(|row| card::row::well_formed(row))
}

// The IDs of the rows on line differ pairwise: none has the ID of an on-line row before it. The rows are compared in place, since
// a handheld has little stack (C-14).
#[tactic(auto, unfolding(crate::specs::Network::ids_differ))]
fn ids_differ(net: &[u8], n: usize) -> bool
    requires { row_start net.now n ≤ length net.now }
    ensures { result ≡ ids_differ net.now n }
{
    for (k, row) in Rows::first(net, n).enumerate() {
        let g = card::row::load(row);
        if g.on_line() && node_of(net, g.id, k, k).is_some() {
            return false;
        }
    }
    true
}

#[tactic(auto, using(crate::proofs::Rows::WithRows::row_within, crate::proofs::Online::Nodes::online_is), unfolding(crate::specs::Network::holder_fits))]
fn holder_fits(net: &[u8]) -> bool
    requires header_bytes_in_bounds { header_bytes ≤ length net.now }
    requires net_in_bounds { row_start net.now (rows net.now) ≤ length net.now }
    ensures { result ≡ holder_fits net.now }
{
    let h = holder(net);
    if phase(net) == LOST {
        return h == 0;
    }
    if rows(net) <= h {
        return false;
    }
    regs_at(net, h).on_line()
}

// SHAPE does not refuse the network. Any bytes of any length may be asked about.
#[tactic(auto, using(crate::proofs::Rows::Headers::header_told), unfolding(crate::specs::Network::shape))]
pub fn shape(net: &[u8]) -> bool
    ensures { result ≡ shape net.now }
{
    if net.len() < HEADER {
        return false;
    }
    if !header_fits(net) {
        return false;
    }
    let n = rows(net);
    rows_fit(net, n) & ids_differ(net, n) & holder_fits(net)
}
