// Standard input, line by line. What was read and not yet taken stands in a buffer.
ghost use Rattle.std.specs.Prelude.{◌≡◌, ◌-◌, ◌≤◌, length, take, drop, ltb, Ok, Err, IfOk, IfErr, IfSome, MatchResult};
ghost use Rattle.places.specs.Places.{onward};
ghost use Rattle.bits.specs.Words.{pick};
ghost use Rattle.prompt.specs.declared.answers.Mistake.TheVariants.{Long};
ghost use Rattle.prompt.specs.Input.{LINE, text_of};

use crate::answers::Mistake;
use std::io;
use std::io::Read;

// The buffer: a line of this many bytes or more does not fit it.
pub const LINE: usize = 8192;

// Where a line stands in the buffer, without its newline.
#[derive(Clone, Copy, Debug, PartialEq, Eq)]
pub struct Line {
    from: usize,
    end: usize,
    ghost ordered: { from ≤ end },
    ghost within: { end ≤ LINE },
}

impl Line {
    // A line that did not fit the buffer is a mistake, and no other is.
    fn fitting(self, long: bool) -> Result<Line, Mistake>
        ensures { result ≡ pick long (Err Long) (Ok self) }
    {
        if long { Err(Mistake::Long) } else { Ok(self) }
    }
}

// What was read, of which the bytes from `next` to `to` are not taken yet.
// Kept: a value like any other, so that whoever holds one may read on from it twice.
#[derive(Clone, Copy, Debug, PartialEq, Eq)]
pub struct Input {
    // Kept: no heap; what stands between `next` and `to` wraps nowhere, and is lent as one slice.
    held: [u8; LINE],
    next: usize,
    to: usize,
    ghost ordered: { next ≤ to },
    ghost within: { to ≤ LINE },
}

impl Input {
    pub fn new() -> Input {
        Input {
            held: [0; LINE],
            next: 0,
            to: 0,
        }
    }

    // The bytes of a line.
    #[tactic(auto, unfolding(places::specs::Places::onward))]
    pub fn text(&self, line: Line) -> &[u8]
        ensures text { result.now ≡ text_of self.now.held line.from line.end }
        ensures fits { length result.now ≤ LINE }
        ensures place { result.ref_ptr ≡ onward self.entry.ref_ptr line.from }
    {
        &self.held[line.from..line.end]
    }

    // The line up to the next newline is taken, where one was read.
    fn take(&mut self) -> Option<Line> {
        let from = self.next;
        let n = self.held[from..self.to].iter().position(|&b| b == b'\n')?;
        self.next = from + n + 1;
        Some(Line {
            from,
            end: from + n,
        })
    }

    // One read, behind what is not taken yet, which is moved to the front. It hands back whether bytes came; where the
    // read fails, its error, and what is not taken stands all the same.
    fn refill(&mut self, stdin: &mut impl Read) -> io::Result<bool>
        ensures bytes { take (self.old.to - self.old.next) self.new.held ≡ take (self.old.to - self.old.next) (drop self.old.next self.old.held) }
        ensures front { (self.new.next ≡ 0) × (self.old.to - self.old.next ≤ self.new.to) }
        ensures came { MatchResult result (λ came. came ≡ ltb (self.old.to - self.old.next) self.new.to) (λ e. self.new.to ≡ self.old.to - self.old.next) }
    {
        self.held.copy_within(self.next..self.to, 0);
        self.to -= self.next;
        self.next = 0;
        let n = stdin.read(&mut self.held[self.to..])?;
        self.to += n;
        Ok(0 < n)
    }

    // The input has ended: what is not taken yet is the last line, if there is one, or the end of one that did not fit.
    fn last(&mut self, long: bool) -> Option<Line> {
        if (self.next == self.to) & !long {
            return None;
        }
        let line = Line {
            from: self.next,
            end: self.to,
        };
        self.next = self.to;
        Some(line)
    }

    // The next line is taken; the last one may lack its newline. One that does not fit is a mistake, and its bytes are
    // gone. Where a read fails, its error is handed back, and no line is taken: what the buffer holds is the beginning of
    // one.
    pub fn next(&mut self, stdin: &mut impl Read) -> io::Result<Option<Result<Line, Mistake>>>
        ensures { IfOk result (λ o. IfSome o (λ taken. IfErr taken (λ m. m ≡ Long))) }
    {
        let mut long = false;
        // A proved loop has to end, and nothing says that a line does: no run uses up this count.
        for _ in 0..u64::MAX {
            if let Some(line) = self.take() {
                return Ok(Some(line.fitting(long)));
            }
            // A full buffer with no newline in it: what it holds of the line is dropped.
            if self.to - self.next == LINE {
                long = true;
                self.next = self.to;
            }
            if !self.refill(stdin)? {
                break;
            }
        }
        Ok(self.last(long).map(|line| line.fitting(long)))
    }
}
