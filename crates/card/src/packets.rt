// Document 01, "Packets": the shape of a page, the reader, and the packet read out and stored.
ghost use Rattle.std.specs.Prelude.{◌≡◌, ◌+◌, ◌-◌, ◌≤◌, ◌<◌, length, take, drop};
ghost use Rattle.places.specs.Places.{onward};
ghost use Rattle.told.specs.Refusals.{number};
ghost use Rattle.card.specs.Row.{Whole};
ghost use Rattle.card.specs.Packets.{shape_of, data_bytes, data_at, head_bytes, page_bytes, page_of, page_at, malformed, page_shape, destination, data_number, data_from, page_data, packet_at, laid, stored, stamped, storable};

use crate::row::{REGISTER_BYTES, load};
use registers::regs::Regs;
use told::refusals::Refusal;

// What a page holds, and the COUNT byte of a packet: the page offset at which its data start.
// Kept: four functions of a shape, one for each of `Packets.data_bytes`, `data_at`, `head_bytes` and `page_bytes`, which
// are 0 for a malformed page.
#[derive(Clone, Copy, Debug, PartialEq, Eq)]
pub enum Shape {
    Malformed,
    Short(u8),
    Long(u8),
}

// A page of a row: where in the row it starts, and whether it may be long.
#[derive(Clone, Copy, Debug, PartialEq, Eq)]
pub struct Page {
    pub at: usize,
    pub long: bool,
}

// A packet that was read out of a page: the page's bytes, and zeros up to 512.
#[derive(Clone, Copy, Debug, PartialEq, Eq)]
pub struct Packet {
    pub shape: Shape,
    // Kept: no heap; copied out, since its row is lent to be changed, with zeros up to 512 as `Packets.packet_at` has.
    pub bytes: [u8; 512],
}

// The shape by the byte at offset 2, the byte after it, and whether the page may be long.
#[tactic(auto, unfolding(crate::specs::Packets::shape_of))]
fn shape_of(count: u8, next: u8, long: bool) -> Shape
    ensures { result ≡ shape_of count next long }
{
    if 3 <= count {
        return Shape::Short(count);
    }
    if (count == 0) & long & (4 <= next) {
        return Shape::Long(next);
    }
    Shape::Malformed
}

impl Shape {
    pub fn malformed(self) -> bool
        ensures { result ≡ malformed self }
    {
        matches!(self, Shape::Malformed)
    }

    // N, the number of data bytes.
    fn data_bytes(self) -> usize
        ensures { result ≡ data_bytes self }
    {
        match self {
            Shape::Malformed => 0,
            Shape::Short(count) => 256 - usize::from(count),
            Shape::Long(count) => 512 - usize::from(count),
        }
    }

    // The page offset of the first data byte.
    fn data_at(self) -> usize
        ensures { result ≡ data_at self }
    {
        match self {
            Shape::Malformed => 0,
            Shape::Short(count) | Shape::Long(count) => usize::from(count),
        }
    }

    // SID, DID and the COUNT byte or bytes.
    fn head_bytes(self) -> usize
        ensures { result ≡ head_bytes self }
    {
        match self {
            Shape::Malformed => 0,
            Shape::Short(_) => 3,
            Shape::Long(_) => 4,
        }
    }

    fn page_bytes(self) -> usize
        ensures { result ≡ page_bytes self }
    {
        match self {
            Shape::Malformed => 0,
            Shape::Short(_) => 256,
            Shape::Long(_) => 512,
        }
    }

    // Whether a packet of this shape can be stored by a card with the registers g at all.
    #[tactic(auto, unfolding(crate::specs::Packets::storable))]
    pub fn storable(self, g: Regs) -> bool
        ensures { result ≡ storable g self }
    {
        match self {
            Shape::Malformed => false,
            Shape::Short(_) => true,
            Shape::Long(_) => g.long == 1,
        }
    }
}

// Kept: `Whole` and `page < 4` stand at each function of a row and a page, since the public ones keep their clauses
// (`page_shape`, `destination`, `packet_at`, `store_packet`, `stamp`).

// A page by its number: the one place that knows how long pages are, and which may be long.
#[tactic(auto, using(crate::proofs::Rows::Sizes::whole_registers, crate::proofs::Rows::Sizes::whole_long), unfolding(crate::specs::Packets::page_of))]
fn page_of(row: &[u8], page: usize) -> Page
    requires whole { Whole row.now }
    requires page_bound { page < 4 }
    ensures page { result ≡ page_of row.now page }
    ensures room { result.at + 256 ≤ length row.now }
{
    let g = load(row);
    Page {
        at: REGISTER_BYTES + 256 * page,
        long: (g.long == 1) & (page & 1 == 0),
    }
}

#[tactic(auto, unfolding(crate::specs::Packets::page_shape))]
pub fn page_shape(row: &[u8], page: usize) -> Shape
    requires whole { Whole row.now }
    requires page_bound { page < 4 }
    ensures { result ≡ page_shape row.now page }
{
    let p = page_of(row, page);
    shape_of(row[p.at + 2], row[p.at + 3], p.long)
}

// The DID byte of a page.
#[tactic(auto, unfolding(crate::specs::Packets::destination))]
pub fn destination(row: &[u8], page: usize) -> u8
    requires whole { Whole row.now }
    requires page_bound { page < 4 }
    ensures { result ≡ destination row.now page }
{
    row[page_of(row, page).at + 1]
}

// The data of a page: that stretch of the row itself, of length 0 where the call below refuses.
#[tactic(auto, using(crate::proofs::Pages::Refused::page_refused, crate::proofs::Pages::Sizes::data_fits), unfolding(crate::specs::Packets::page_data, places::specs::Places::onward))]
pub fn page_data(row: &[u8], page: usize) -> &[u8]
    requires { Whole row.now }
    ensures bytes { result.now ≡ page_data row.now page }
    ensures place { data_number row.now page ≡ 0 → result.ref_ptr ≡ onward row.entry.ref_ptr (data_from row.now page) }
{
    if 3 < page {
        return &row[0..0];
    }
    let shape = page_shape(row, page);
    let from = page_of(row, page).at + shape.data_at();
    let to = from + shape.data_bytes();
    &row[from..to]
}

// Whether the reader's data may be asked for.
#[tactic(auto, using(told::proofs::Told::Smallest::refuse_held, told::proofs::Told::Results::handed_number, told::proofs::Told::Results::stands), unfolding(crate::specs::Packets::data_refusals))]
pub fn may_read_data(row: &[u8], page: usize) -> Result<(), Refusal>
    requires { Whole row.now }
    ensures { number result ≡ data_number row.now page }
{
    if 3 < page {
        return Err(Refusal::Value);
    }
    Refusal::Value.when(page_shape(row, page).malformed())
}

// The packet of a page is read out of the row.
#[tactic(auto, using(crate::proofs::Pages::Sizes::page_fits), unfolding(crate::specs::Packets::packet_at))]
pub fn packet_at(row: &[u8], page: usize) -> Packet
    requires whole { Whole row.now }
    requires page_bound { page < 4 }
    ensures { result ≡ packet_at row.now page }
{
    let shape = page_shape(row, page);
    let size = shape.page_bytes();
    let at = page_of(row, page).at;
    let mut bytes = [0u8; 512];
    bytes[0..size].copy_from_slice(&row[at..at + size]);
    Packet { shape, bytes }
}

// The bytes take the place of as many from `at` on.
fn lay(row: &mut [u8], at: usize, bytes: &[u8])
    requires { at + length bytes.now ≤ length row.old }
    ensures { row.new ≡ laid at bytes.now row.old }
{
    row[at..at + bytes.len()].copy_from_slice(bytes);
}

// A packet is stored at the same offsets of a page; the gap between its head and its data is untouched.
#[tactic(auto, unfolding(crate::specs::Packets::stored))]
pub fn store_packet(row: &mut [u8], page: usize, packet: Packet)
    requires whole { Whole row.old }
    requires page_bound { page < 4 }
    requires shape_in_bounds { page_at row.old page + page_bytes packet.shape ≤ length row.old }
    ensures { row.new ≡ stored row.old (page_at row.old page) packet }
{
    let at = page_of(row, page).at;
    lay(row, at, &packet.bytes[..packet.shape.head_bytes()]);
    let from = packet.shape.data_at();
    let to = from + packet.shape.data_bytes();
    lay(row, at + from, &packet.bytes[from..to]);
}

// The row's own ID is written at byte 0 of a page that is to be sent.
#[tactic(auto, using(crate::proofs::Rows::Sizes::whole_registers), unfolding(crate::specs::Packets::stamped))]
pub fn stamp(row: &mut [u8], page: usize)
    requires whole { Whole row.old }
    requires page_bound { page < 4 }
    ensures { row.new ≡ stamped row.old (page_at row.old page) }
{
    let at = page_of(row, page).at;
    row[at] = load(row).id;
}
