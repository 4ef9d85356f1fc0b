// Text gathered in a buffer, and written where the buffer is full or the line ends. Where a write fails, its error is
// handed back, and the rest of the text is not gathered.
ghost use Rattle.std.specs.Prelude.{◌≡◌, ◌≤◌, [], ◌∷◌, ◌++◌, length, OnErr};
ghost use Rattle.std.specs.Fmt.{decimal};
ghost use Rattle.std.specs.Int.{to_be_bytes, w64};
ghost use Rattle.print.specs.Gather.{got, Gathers, Ends, hex, spaced, pad, column, SPACE, ROOM as room};

use std::io;
use std::marker::Model;

// How many bytes are gathered before they are written.
// Kept: public, for whoever asks when an `Output` writes.
pub const ROOM: usize = 4096;

const DIGITS: [u8; 16] = *b"0123456789ABCDEF";

// The text that is on its way to `to`: the first `count` bytes of `held`.
#[derive(Drop)]
pub struct Output<'a, P: Print> {
    to: &'a P,
    // Kept: no heap; of its one size, only the first `count` bytes are text, and the view holds the two together.
    held: [u8; ROOM],
    count: usize,
}

impl<'a, P: Print> Model for Output<'a, P> {
    ghost use Rattle.print.specs.Gather.{Gathered, got};

    ghost Value = { Gathered };

    ghost view = { λ o. got o.held o.count };
}

impl<'a, P: Print> Output<'a, P> {
    // Nothing is gathered yet.
    pub fn new(to: &'a P) -> Output<'a, P>
        ensures empty { result.count ≡ 0 }
        ensures room { length result.held ≡ room }
    {
        Output {
            to,
            held: [0; ROOM],
            count: 0,
        }
    }

    // A text begins: what was gathered and not written, as where a write failed, does not come with it.
    pub fn begin(&mut self)
        ensures { self.new ≡ got self.old.held 0 }
    {
        self.count = 0;
    }

    // A byte goes behind those that are gathered; where the buffer is full, what it holds is written first.
    #[tactic(auto, using(crate::proofs::Gathers::stopped_none), unfolding(crate::specs::Gather::put, crate::specs::Gather::gather))]
    fn put(&mut self, b: u8) -> io::Result<()>
        ensures gathered { Gathers result self.old (b ∷ []) self.new }
        ensures full { OnErr result ((room ≤ self.old.count) × (self.new ≡ self.old)) }
    {
        if ROOM <= self.count {
            self.to.write_all(&self.held)?;
            self.count = 0;
        }
        self.held[self.count] = b;
        self.count += 1;
        Ok(())
    }

    #[tactic(auto, using(crate::proofs::Gathers::text_more, crate::proofs::Gathers::text_stop), unfolding(crate::specs::Gather::gather))]
    pub fn text(&mut self, s: &[u8]) -> io::Result<()>
        ensures { Gathers result self.old s.now self.new }
    {
        for &b in s {
            self.put(b)?;
        }
        Ok(())
    }

    fn decimal(&mut self, number: usize) -> io::Result<()>
        ensures { Gathers result self.old (decimal number) self.new }
    {
        let mut digits = itoa::Buffer::new();
        self.text(digits.format(number).as_bytes())
    }

    // A number after a space.
    #[tactic(auto, using(crate::proofs::Gathers::byte_first, crate::proofs::Gathers::byte_then))]
    pub fn number(&mut self, number: usize) -> io::Result<()>
        ensures { Gathers result self.old (SPACE ∷ decimal number) self.new }
    {
        self.put(b' ')?;
        self.decimal(number)
    }

    // A byte as two digits in hex.
    #[tactic(auto, using(crate::proofs::Gathers::byte_first, crate::proofs::Gathers::byte_then), unfolding(crate::specs::Gather::hex))]
    fn byte(&mut self, b: u8) -> io::Result<()>
        ensures { Gathers result self.old (hex (b ∷ [])) self.new }
    {
        self.put(DIGITS[usize::from(b / 16)])?;
        self.put(DIGITS[usize::from(b % 16)])
    }

    #[tactic(auto, using(crate::proofs::Gathers::hex_more, crate::proofs::Gathers::hex_stop), unfolding(crate::specs::Gather::gather, crate::specs::Gather::hex))]
    fn bytes(&mut self, s: &[u8]) -> io::Result<()>
        ensures { Gathers result self.old (hex s.now) self.new }
    {
        for &b in s {
            self.byte(b)?;
        }
        Ok(())
    }

    // Bytes after a space; nothing where there are none.
    #[tactic(auto, using(crate::proofs::Gathers::byte_first, crate::proofs::Gathers::byte_then, crate::proofs::Gathers::no_bytes, crate::proofs::Gathers::some_bytes), unfolding(crate::specs::Gather::gather))]
    pub fn spaced(&mut self, s: &[u8]) -> io::Result<()>
        ensures { Gathers result self.old (spaced s.now) self.new }
    {
        if s.is_empty() {
            return Ok(());
        }
        self.put(b' ')?;
        self.bytes(s)
    }

    // A number as sixteen digits in hex.
    pub fn sixteen(&mut self, number: u64) -> io::Result<()>
        ensures { Gathers result self.old (hex (to_be_bytes w64 number)) self.new }
    {
        self.bytes(&number.to_be_bytes())
    }

    // The line ends, and what is gathered is written.
    #[tactic(auto, unfolding(crate::specs::Gather::gather, crate::specs::Gather::line_of))]
    pub fn end(&mut self) -> io::Result<()>
        ensures { Ends result self.old [] self.new }
    {
        self.put(b'\n')?;
        self.to.write_all(&self.held[..self.count])?;
        self.count = 0;
        Ok(())
    }

    // A space, where one is wanted.
    #[tactic(auto, unfolding(crate::specs::Gather::gather, crate::specs::Gather::pad))]
    fn pad(&mut self, wanted: bool) -> io::Result<()>
        ensures { Gathers result self.old (pad wanted) self.new }
    {
        if !wanted {
            return Ok(());
        }
        self.put(b' ')
    }

    // A number at the right of a column of four.
    #[tactic(auto, using(crate::proofs::Gathers::gathers_first, crate::proofs::Gathers::stopped_second, crate::proofs::Gathers::gathers_stop, crate::proofs::Gathers::gathers_then), unfolding(crate::specs::Gather::column))]
    fn column(&mut self, number: usize) -> io::Result<()>
        ensures { Gathers result self.old (column number) self.new }
    {
        self.pad(number < 1000)?;
        self.pad(number < 100)?;
        self.pad(number < 10)?;
        self.decimal(number)
    }

    // Three numbers, each at the right of its column.
    #[tactic(auto, using(crate::proofs::Gathers::gathers_first, crate::proofs::Gathers::stopped_second, crate::proofs::Gathers::gathers_stop, crate::proofs::Gathers::gathers_then))]
    pub fn columns(&mut self, a: usize, b: usize, c: usize) -> io::Result<()>
        ensures { Gathers result self.old (column a ++ (column b ++ column c)) self.new }
    {
        self.column(a)?;
        self.column(b)?;
        self.column(c)
    }
}
