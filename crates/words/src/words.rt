// A line's words, separated by spaces.
ghost use Rattle.std.specs.Prelude.{◌≡◌, true, ◌+◌, ◌≤◌, length, drop};
ghost use Rattle.places.specs.Places.{onward};
ghost use Rattle.words.specs.Words.{up_to, part, part_from, word, word_from, row, row_from, count, spaced};

const SPACE: u8 = b' ';

const NEWLINE: u8 = b'\n';

// Where the first `stop` is, or the text's length where there is none.
fn first(text: &[u8], stop: u8) -> usize
    ensures value { result ≡ length (up_to stop text.now) }
    ensures upper_bound { result ≤ length text.now }
{
    text.iter().position(|&b| b == stop).unwrap_or(text.len())
}

// The end of the part that starts at `from`: the next `stop`, or the text's end.
fn part_end(text: &[u8], stop: u8, from: usize) -> usize
    requires { from ≤ length text.now }
    ensures value { result ≡ from + length (up_to stop (drop from text.now)) }
    ensures upper_bound { result ≤ length text.now }
{
    from + first(&text[from..], stop)
}

// Part k of the text, from 0, of those that `stop` separates; nothing where there is no such part.
// Kept: public, and called in this file alone; OfWords.part of promises holds its contract.
#[tactic(auto, using(crate::proofs::Lines::part_here, crate::proofs::Lines::from_here, crate::proofs::Lines::part_past, crate::proofs::Lines::part_missing, crate::proofs::Lines::from_past), unfolding(places::specs::Places::onward))]
pub fn part(text: &[u8], stop: u8, k: usize) -> &[u8]
    ensures bytes { result.now ≡ part stop text.now k }
    ensures place { part_from stop text.now k ≤ length text.now → result.ref_ptr ≡ onward text.entry.ref_ptr (part_from stop text.now k) }
{
    // Kept: `place` says where the part stands, and the library's `split` does not.
    let mut from = 0;
    for _ in 0..k {
        let end = part_end(text, stop, from);
        if end == text.len() {
            return &text[0..0];
        }
        from = end + 1;
    }
    &text[from..part_end(text, stop, from)]
}

pub fn word(line: &[u8], k: usize) -> &[u8]
    ensures bytes { result.now ≡ word line.now k }
    ensures place { word_from line.now k ≤ length line.now → result.ref_ptr ≡ onward line.entry.ref_ptr (word_from line.now k) }
{
    part(line, SPACE, k)
}

// How many words: one more than the spaces.
#[tactic(auto, unfolding(crate::specs::Words::count))]
pub fn count(line: &[u8]) -> usize
    ensures { result ≡ count line.now }
{
    line.iter().filter(|&&b| b == SPACE).count() + 1
}

// No word is empty: single spaces, and none at either end.
#[tactic(auto, using(crate::proofs::Lines::spaced_end, crate::proofs::Lines::spaced_not, crate::proofs::Lines::spaced_more))]
pub fn spaced(line: &[u8]) -> bool
    ensures { result ≡ spaced true line.now }
{
    let mut gap = true;
    for &b in line {
        let space = b == SPACE;
        if gap & space {
            return false;
        }
        gap = space;
    }
    !gap
}

// The first line of the table that has the name as its first word; nothing where none has.
// Kept: nobody calls it now; OfWords.row of promises holds its contract.
#[tactic(auto, using(crate::proofs::Tables::row_found, crate::proofs::Tables::row_more, crate::proofs::Tables::row_missing, crate::proofs::Tables::from_found, crate::proofs::Tables::from_more, crate::proofs::Tables::from_none), unfolding(places::specs::Places::onward, crate::specs::Words::row, crate::specs::Words::row_from, crate::specs::Words::row_of))]
pub fn row<'a>(table: &'a [u8], name: &'a [u8]) -> &'a [u8]
    ensures bytes { result.now ≡ row table.now name.now }
    ensures place { row_from table.now name.now ≤ length table.now → result.ref_ptr ≡ onward table.entry.ref_ptr (row_from table.now name.now) }
{
    // Kept: as in `part`, `split` does not say where the line stands. A table has no more lines with a byte in them than
    // bytes.
    let mut from = 0;
    for _ in 0..table.len() {
        let end = part_end(table, NEWLINE, from);
        let line = &table[from..end];
        if word(line, 0) == name {
            return line;
        }
        if end == table.len() {
            break;
        }
        from = end + 1;
    }
    &table[0..0]
}
