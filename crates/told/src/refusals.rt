// Document 01, "Numbers a caller may get", with those of C-12: what a call is refused with.
ghost use Rattle.std.specs.Prelude.{◌≡◌, Some};
ghost use Rattle.told.specs.Numbers.{DONE, refuse};
ghost use Rattle.told.specs.Refusals.{name_of, number, number_of};

use std::error::Error;
use std::fmt;

#[derive(Clone, Copy, Debug, PartialEq, Eq)]
pub enum Refusal {
    Shape,
    Row,
    Register,
    Value,
    NotReady,
    Direction,
    Busy,
    Online,
    Page,
    Duplicate,
    Alone,
    Room,
    // What is wrong with an order (C-12).
    Length,
    Mark,
    OrderId,
    Flags,
    Name,
    Twice,
}

impl Refusal {
    // Kept: the one place in code that says 01's numbers, as `Refusals.number_of` has them.
    // 11 is not given again (C-20): no line step could answer it, since SHAPE comes first.
    pub fn number(self) -> u8
        ensures { result ≡ number_of self }
    {
        match self {
            Refusal::Shape => 1,
            Refusal::Row => 2,
            Refusal::Register => 3,
            Refusal::Value => 4,
            Refusal::NotReady => 5,
            Refusal::Direction => 6,
            Refusal::Busy => 7,
            Refusal::Online => 8,
            Refusal::Page => 9,
            Refusal::Duplicate => 10,
            Refusal::Alone => 12,
            Refusal::Room => 13,
            Refusal::Length => 14,
            Refusal::Mark => 15,
            Refusal::OrderId => 16,
            Refusal::Flags => 17,
            Refusal::Name => 18,
            Refusal::Twice => 19,
        }
    }

    // The name that document 01 gives it.
    pub fn name(self) -> &'static str
        ensures { result.now ≡ name_of self }
    {
        match self {
            Refusal::Shape => "SHAPE",
            Refusal::Row => "ROW",
            Refusal::Register => "REGISTER",
            Refusal::Value => "VALUE",
            Refusal::NotReady => "NOTREADY",
            Refusal::Direction => "DIRECTION",
            Refusal::Busy => "BUSY",
            Refusal::Online => "ONLINE",
            Refusal::Page => "PAGE",
            Refusal::Duplicate => "DUPLICATE",
            Refusal::Alone => "ALONE",
            Refusal::Room => "ROOM",
            Refusal::Length => "LENGTH",
            Refusal::Mark => "MARK",
            Refusal::OrderId => "ORDER-ID",
            Refusal::Flags => "FLAGS",
            Refusal::Name => "NAME",
            Refusal::Twice => "TWICE",
        }
    }

    // Refused where the test holds; else the next test is asked.
    #[tactic(auto, unfolding(crate::specs::Numbers::refuse))]
    pub fn when(self, test: bool) -> Result<(), Refusal>
        ensures { number result ≡ refuse DONE (number_of self) test }
    {
        if test { Err(self) } else { Ok(()) }
    }
}

impl fmt::Display for Refusal {
    ghost output = { λ e. Some (name_of e) };

    fn fmt<W: fmt::Write>(&self, f: &mut fmt::Formatter<W>) -> fmt::Result {
        f.write_str(self.name())
    }
}

impl Error for Refusal {}
