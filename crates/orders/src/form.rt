// Document 01, "Order forms and the lap": the order form.
ghost use Rattle.std.specs.Prelude.{◌≡◌, ◌+◌, ◌*◌, ◌≤◌, ◌<◌, eqb, length};
ghost use Rattle.places.specs.Places.{onward};
ghost use Rattle.table.specs.Folds.{seek, below};
ghost use Rattle.orders.specs.Form.{record_bytes, records, record_at, marked, id_of, id_at, flags_of, name_of, printables, trimmed, name_from, name_at};

pub const RECORD: usize = 16;

// The fixed bytes that each record begins with.
const RECORD_MARK: [u8; 2] = *b"\x4f\x52";

pub(crate) const SPACE: u8 = b' ';

// Flag bits of a record.
pub const RECEIVE: u8 = 1;

pub const LONG: u8 = 2;

// The number of whole records.
#[tactic(auto, unfolding(crate::specs::Form::records))]
pub fn records(order: &[u8]) -> usize
    ensures { result ≡ records order.now }
{
    order.len() / RECORD
}

// A record of an order, by itself: what stands where in its bytes.
// Kept: it derives no more, since nothing compares or prints one.
#[derive(Clone, Copy)]
pub(crate) struct Record<'a> {
    pub(crate) bytes: &'a [u8],
    pub(crate) ghost sized: { length bytes.now ≡ record_bytes },
}

impl<'a> Record<'a> {
    pub(crate) fn marked(self) -> bool
        ensures { result ≡ marked self.entry.bytes.now }
    {
        self.bytes.starts_with(&RECORD_MARK)
    }

    pub(crate) fn id(self) -> u8
        ensures { result ≡ id_of self.entry.bytes.now }
    {
        self.bytes[2]
    }

    pub(crate) fn flags(self) -> u8
        ensures { result ≡ flags_of self.entry.bytes.now }
    {
        self.bytes[3]
    }

    #[tactic(auto, using(crate::proofs::Forms::Names::all_of_name), unfolding(places::specs::Places::onward))]
    pub(crate) fn name(self) -> &'a [u8]
        ensures bytes { result.now ≡ name_of self.entry.bytes.now }
        ensures size { 0 < length result.now }
        ensures place { result.ref_ptr ≡ onward self.entry.bytes.ref_ptr 4 }
    {
        &self.bytes[4..]
    }
}

// Record k.
#[tactic(auto, using(crate::proofs::Forms::Records::length_record_at), unfolding(places::specs::Places::onward, crate::specs::Form::record_at))]
pub(crate) fn record_at(order: &[u8], k: usize) -> Record<'_>
    requires { record_bytes * k + record_bytes ≤ length order.now }
    ensures bytes { result.bytes.now ≡ record_at order.now k }
    ensures place { result.bytes.ref_ptr ≡ onward order.entry.ref_ptr (record_bytes * k) }
{
    let a = RECORD * k;
    Record {
        bytes: &order[a..a + RECORD],
    }
}

// Kept: id_at and flags_at are public, with a contract each, and ask that record k is there (docs/STATEMENTS.md, "What is
// public and asks something"); `record_at` asks it for them.
pub fn id_at(order: &[u8], k: usize) -> u8
    requires { record_bytes * k + record_bytes ≤ length order.now }
    ensures { result ≡ id_at order.now k }
{
    record_at(order, k).id()
}

pub fn flags_at(order: &[u8], k: usize) -> u8
    requires { record_bytes * k + record_bytes ≤ length order.now }
    ensures { result ≡ flags_of (record_at order.now k) }
{
    record_at(order, k).flags()
}

// Each byte is a printing character, 20 to 7E.
pub fn printable(name: &[u8]) -> bool
    ensures { result ≡ printables name.now }
{
    name.iter().all(|b| (SPACE..=0x7e).contains(b))
}

// The first record with this ID among the first n.
pub fn record_of(order: &[u8], id: u8, n: usize) -> Option<usize>
    requires { record_bytes * n ≤ length order.now }
    ensures { result ≡ below n (seek (λ k. eqb (id_at order.now k) id) n) }
{
    (0..n).find(|&k| id_at(order, k) == id)
}

// A name without its trailing spaces.
#[tactic(auto, using(crate::proofs::Forms::Names::trim_none))]
fn trimmed(name: &[u8]) -> &[u8]
    ensures bytes { result.now ≡ trimmed name.now }
    ensures place { result.ref_ptr ≡ name.entry.ref_ptr }
{
    match name.iter().rposition(|&b| b != SPACE) {
        Some(last) => &name[..=last],
        None => &name[..0],
    }
}

// The station name of record k; nothing where there is no such record.
#[tactic(auto, using(crate::proofs::Forms::Records::records_within), unfolding(places::specs::Places::onward, crate::specs::Form::name_at))]
pub fn name_at(order: &[u8], k: usize) -> &[u8]
    ensures bytes { result.now ≡ name_at order.now k }
    ensures place { k < records order.now → result.ref_ptr ≡ onward order.entry.ref_ptr (name_from k) }
{
    if records(order) <= k {
        return &order[..0];
    }
    trimmed(record_at(order, k).name())
}
