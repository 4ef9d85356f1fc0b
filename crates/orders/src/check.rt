// C-12: what is wrong with an order, and with which record.
ghost use Rattle.std.specs.Prelude.{◌≡◌, ◌+◌, ◌*◌, ◌≤◌, length};
ghost use Rattle.told.specs.Numbers.{told};
ghost use Rattle.told.specs.Refusals.{number};
ghost use Rattle.orders.specs.Form.{record_bytes, length_fits, name_fits, repeats};
ghost use Rattle.orders.specs.Check.{form_refusals, record_number, verdict, checked};

pub use crate::bad::Bad;
use crate::form::{
    LONG, RECEIVE, RECORD, Record, SPACE, id_at, printable, record_at, record_of, records,
};
use table::network::ROWS;
use told::refusals::Refusal;

#[tactic(auto, unfolding(crate::specs::Form::length_fits))]
fn length_fits(order: &[u8]) -> bool
    ensures { result ≡ length_fits order.now }
{
    let n = records(order);
    (order.len() % RECORD == 0) & (0 < n) & (n <= ROWS)
}

// The name prints, and its first character is not a space.
fn name_fits(form: Record) -> bool
    ensures { result ≡ name_fits form.entry.bytes.now }
{
    let name = form.name();
    (name[0] != SPACE) & printable(name)
}

// A record by itself.
#[tactic(auto, using(crate::proofs::Checks::Tests::above, told::proofs::Told::Results::handed_number, told::proofs::Told::Results::stands))]
fn check_form(form: Record) -> Result<(), Refusal>
    ensures { number result ≡ told (form_refusals form.entry.bytes.now) }
{
    Refusal::Mark.when(!form.marked())?;
    Refusal::OrderId.when(form.id() == 0)?;
    Refusal::Flags.when(RECEIVE | LONG < form.flags())?;
    Refusal::Name.when(!name_fits(form))
}

// A record before record k has its ID: of two records with one ID the later is bad.
// Kept: that record k is there is asked of the lent bytes, here and below, as `id_at` asks it.
fn repeats(order: &[u8], k: usize) -> bool
    requires { record_bytes * k + record_bytes ≤ length order.now }
    ensures { result ≡ repeats order.now k }
{
    record_of(order, id_at(order, k), k).is_some()
}

// Record k of an order.
#[tactic(auto, using(told::proofs::Told::Results::handed_number, told::proofs::Told::Results::stands), unfolding(crate::specs::Check::record_number))]
fn check_record(order: &[u8], k: usize) -> Result<(), Refusal>
    requires { record_bytes * k + record_bytes ≤ length order.now }
    ensures { number result ≡ record_number order.now k }
{
    check_form(record_at(order, k))?;
    Refusal::Twice.when(repeats(order, k))
}

// Any bytes of any length may be asked about.
pub fn check(order: &[u8]) -> Result<(), Bad>
    ensures { verdict result ≡ checked order.now }
{
    Refusal::Length.when(!length_fits(order))?;
    // Kept: k is the record's number, from 0.
    for k in 0..records(order) {
        check_record(order, k).map_err(|refusal| Bad {
            record: Some(k + 1),
            refusal,
        })?;
    }
    Ok(())
}
