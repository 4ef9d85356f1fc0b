// The answer lines. Where a write fails, its error is handed back, and the rest of the line is not gathered.
ghost use Rattle.std.specs.Prelude.{◌++◌};
ghost use Rattle.print.specs.Gather.{got, Ends, spaced};
ghost use Rattle.prompt.specs.Answers.{DONE};

use line::step::Answer;
use line::traffic::Outcome;
use orders::check::Bad;
use print::gather::Output;
use std::io;
use told::refusals::Refusal;

// What was not understood.
#[derive(Clone, Copy, Debug, PartialEq, Eq)]
pub enum Mistake {
    Long,
    Spaces,
    Word,
    Count,
    Number,
    Hex,
    Size,
    Outside,
    Room,
}

// An answer of one line: a text or a refusal, and the number after it where there is one.
#[derive(Clone, Copy, Debug, PartialEq, Eq)]
pub enum Told {
    Said(&'static str, Option<usize>),
    Refused(Refusal, Option<usize>),
}

impl From<()> for Told {
    fn from(_done: ()) -> Told {
        Told::Said("DONE", None)
    }
}

impl From<usize> for Told {
    fn from(value: usize) -> Told {
        Told::Said("DONE", Some(value))
    }
}

impl From<u8> for Told {
    fn from(value: u8) -> Told {
        Told::from(usize::from(value))
    }
}

impl From<bool> for Told {
    fn from(active: bool) -> Told {
        Told::from(usize::from(active))
    }
}

impl From<Refusal> for Told {
    fn from(refusal: Refusal) -> Told {
        Told::Refused(refusal, None)
    }
}

impl From<Bad> for Told {
    fn from(bad: Bad) -> Told {
        Told::Refused(bad.refusal, bad.record)
    }
}

// C-16: an outcome names the row that answered the enquiry.
impl From<Outcome> for Told {
    fn from(outcome: Outcome) -> Told {
        match outcome {
            Outcome::Nothing => Told::Said("HELD NOTHING", None),
            Outcome::Malformed => Told::Said("HELD MALFORMED", None),
            Outcome::Broadcast(_) => Told::Said("HELD BROADCAST", None),
            Outcome::NoAnswer => Told::Said("HELD NOANSWER", None),
            Outcome::Nak(row) => Told::Said("HELD NAK", Some(row)),
            Outcome::Delivered(row, _) => Told::Said("HELD DELIVERED", Some(row)),
            Outcome::Unacknowledged(row, _, _) => Told::Said("HELD UNACKNOWLEDGED", Some(row)),
        }
    }
}

impl From<Answer> for Told {
    fn from(answer: Answer) -> Told {
        match answer {
            Answer::Quiet => Told::Said("QUIET", None),
            Answer::Recovered(row) => Told::Said("RECOVERED", Some(row)),
            Answer::Passed(row) => Told::Said("PASSED", Some(row)),
            Answer::Unanswered(id) => Told::Said("UNANSWERED", Some(usize::from(id))),
            Answer::TokenLost => Told::Said("TOKENLOST", None),
            Answer::Held(outcome) => Told::from(outcome),
        }
    }
}

impl From<Mistake> for Told {
    fn from(mistake: Mistake) -> Told {
        let text = match mistake {
            Mistake::Long => "ERROR the line is too long",
            Mistake::Spaces => "ERROR words are separated by single spaces",
            Mistake::Word => "ERROR no such word",
            Mistake::Count => "ERROR too few words, or too many",
            Mistake::Number => "ERROR not a number up to 4294967295",
            Mistake::Hex => "ERROR not pairs of hex digits",
            Mistake::Size => "ERROR a size is at most 66400",
            Mistake::Outside => "ERROR outside the lent bytes",
            Mistake::Room => "ERROR a room is at most 70",
        };
        Told::Said(text, None)
    }
}

impl<T: Into<Told>, E: Into<Told>> From<Result<T, E>> for Told {
    fn from(told: Result<T, E>) -> Told {
        match told {
            Ok(value) => value.into(),
            Err(error) => error.into(),
        }
    }
}

pub fn tell<P: Print>(out: &mut Output<P>, told: impl Into<Told>) -> io::Result<()> {
    out.begin();
    let value = match told.into() {
        Told::Said(text, value) => {
            out.text(text.as_bytes())?;
            value
        }
        Told::Refused(refusal, record) => {
            out.text(b"REFUSED")?;
            out.number(usize::from(refusal.number()))?;
            out.text(b" ")?;
            out.text(refusal.name().as_bytes())?;
            record
        }
    };
    if let Some(value) = value {
        out.number(value)?;
    }
    out.end()
}

// DONE and bytes.
pub fn hex<P: Print>(out: &mut Output<P>, s: &[u8]) -> io::Result<()>
    ensures { Ends result (got out.old.held 0) (DONE ++ spaced s.now) out.new }
{
    out.begin();
    out.text(b"DONE")?;
    out.spaced(s)?;
    out.end()
}
