// What a line asks: its first word, and the numbers and bytes after it.
ghost use Rattle.std.specs.Prelude.{◌≡◌, IfOk};
ghost use Rattle.bench.specs.Requests.{name_of, form_of, named, argument, made, asked_of, asked, Fits};

use crate::turns::NET;
use prompt::answers::Mistake;
use words::hex::hex_fits;
use words::numbers::number_at;
use words::words::{count, spaced, word};

// The entries that may be lent to a lap.
const LIST: usize = 70;

// What a line may begin with.
#[derive(Clone, Copy, Debug, PartialEq, Eq)]
pub(crate) enum Word {
    Size,
    Peek,
    Sum,
    Check,
    Interrupt,
    Data,
    Show,
    Help,
    Poke,
    Fresh,
    Load,
    Read,
    Write,
    Reset,
    Timer,
    Step,
    Lap,
}

const WORDS: [Word; 17] = [
    Word::Size,
    Word::Peek,
    Word::Sum,
    Word::Check,
    Word::Interrupt,
    Word::Data,
    Word::Show,
    Word::Help,
    Word::Poke,
    Word::Fresh,
    Word::Load,
    Word::Read,
    Word::Write,
    Word::Reset,
    Word::Timer,
    Word::Step,
    Word::Lap,
];

// What a word takes: the place in its line where hex digits may stand, with numbers before it, and the fewest and the
// most words of the line.
#[derive(Clone, Copy, Debug, PartialEq, Eq)]
pub(crate) struct Form {
    digits: usize,
    fewest: usize,
    most: usize,
}

// A call, with the numbers after its word; the hex digits of `poke` and `load` stand in the line.
#[derive(Clone, Copy, Debug, PartialEq, Eq)]
pub(crate) enum Call {
    Size(usize),
    Peek {
        at: usize,
        count: usize,
    },
    Sum,
    Check,
    Interrupt {
        row: usize,
    },
    Data {
        row: usize,
        page: usize,
    },
    Show,
    Help,
    Poke {
        at: usize,
    },
    Fresh {
        rows: usize,
    },
    Load,
    Read {
        row: usize,
        register: usize,
    },
    Write {
        row: usize,
        register: usize,
        value: usize,
    },
    Reset {
        row: usize,
    },
    Timer {
        row: usize,
    },
    Step {
        fault: usize,
    },
    Lap {
        room: usize,
    },
}

impl Word {
    fn name(self) -> &'static str
        ensures { result.now ≡ name_of self }
    {
        match self {
            Word::Size => "size",
            Word::Peek => "peek",
            Word::Sum => "sum",
            Word::Check => "check",
            Word::Interrupt => "interrupt",
            Word::Data => "data",
            Word::Show => "show",
            Word::Help => "help",
            Word::Poke => "poke",
            Word::Fresh => "fresh",
            Word::Load => "load",
            Word::Read => "read",
            Word::Write => "write",
            Word::Reset => "reset",
            Word::Timer => "timer",
            Word::Step => "step",
            Word::Lap => "lap",
        }
    }

    fn form(self) -> Form
        ensures { result ≡ form_of self }
    {
        let (digits, fewest, most) = match self {
            Word::Sum | Word::Check | Word::Show | Word::Help => (1, 1, 1),
            Word::Load => (1, 1, 2),
            Word::Size | Word::Interrupt | Word::Fresh | Word::Reset => (2, 2, 2),
            Word::Timer | Word::Step | Word::Lap => (2, 2, 2),
            Word::Poke => (2, 3, 3),
            Word::Peek | Word::Data | Word::Read => (3, 3, 3),
            Word::Write => (4, 4, 4),
        };
        Form {
            digits,
            fewest,
            most,
        }
    }

    fn named(name: &[u8]) -> Option<Word>
        ensures { result ≡ named name.now }
    {
        WORDS.iter().copied().find(|w| w.name().as_bytes() == name)
    }

    // The call with its numbers, within the limits of the buffer and the list.
    fn made(self, a: usize, b: usize, c: usize) -> Result<Call, Mistake>
        ensures call { result ≡ made self a b c }
        ensures within { IfOk result Fits }
    {
        let call = match self {
            Word::Size if NET < a => return Err(Mistake::Size),
            Word::Size => Call::Size(a),
            Word::Peek => Call::Peek { at: a, count: b },
            Word::Sum => Call::Sum,
            Word::Check => Call::Check,
            Word::Interrupt => Call::Interrupt { row: a },
            Word::Data => Call::Data { row: a, page: b },
            Word::Show => Call::Show,
            Word::Help => Call::Help,
            Word::Poke => Call::Poke { at: a },
            Word::Fresh => Call::Fresh { rows: a },
            Word::Load => Call::Load,
            Word::Read => Call::Read {
                row: a,
                register: b,
            },
            Word::Write => Call::Write {
                row: a,
                register: b,
                value: c,
            },
            Word::Reset => Call::Reset { row: a },
            Word::Timer => Call::Timer { row: a },
            Word::Step => Call::Step { fault: a },
            Word::Lap if LIST < a => return Err(Mistake::Room),
            Word::Lap => Call::Lap { room: a },
        };
        Ok(call)
    }
}

// The number that is word k of the line; 0 where the numbers end before it.
// Kept: a word takes up to three numbers; what it does not take is 0, and no call has it (Requests.argument).
#[tactic(auto, unfolding(crate::specs::Requests::argument))]
fn argument(line: &[u8], k: usize, end: usize) -> Result<usize, Mistake>
    ensures { result ≡ argument line.now k end }
{
    if end <= k {
        return Ok(0);
    }
    number_at(line, k).ok_or(Mistake::Number)
}

// What a line with this first word asks; the first of the mistakes that it has.
#[tactic(auto, unfolding(crate::specs::Requests::asked_of))]
fn asked_of(line: &[u8], first: Word) -> Result<Call, Mistake>
    ensures call { result ≡ asked_of line.now first }
    ensures within { IfOk result Fits }
{
    let form = first.form();
    let words = count(line);
    if (words < form.fewest) | (form.most < words) {
        return Err(Mistake::Count);
    }
    let a = argument(line, 1, form.digits)?;
    let b = argument(line, 2, form.digits)?;
    let c = argument(line, 3, form.digits)?;
    // A word that is not there is empty, and fits.
    if !hex_fits(word(line, form.digits)) {
        return Err(Mistake::Hex);
    }
    first.made(a, b, c)
}

// What a line asks.
#[tactic(auto, unfolding(crate::specs::Requests::asked))]
pub(crate) fn asked(line: &[u8]) -> Result<Call, Mistake>
    ensures call { result ≡ asked line.now }
    ensures within { IfOk result Fits }
{
    if !spaced(line) {
        return Err(Mistake::Spaces);
    }
    let Some(first) = Word::named(word(line, 0)) else {
        return Err(Mistake::Word);
    };
    asked_of(line, first)
}
