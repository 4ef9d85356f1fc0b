// The bench at a prompt: a line of standard input is a call, answered at once by one line (`show` and `help`: several,
// the last DONE).
#![tactic(auto)]

mod calls;
mod requests;
mod turns;

use print::gather::Output;
use prompt::input::Input;
use std::io;
use std::io::Read;
use turns::Lent;

fn run<P: Print>(
    out: &mut Output<P>,
    stdin: &mut impl Read,
    input: &mut Input,
    lent: &mut Lent,
) -> io::Result<()> {
    // A proved loop has to end, and nothing says that the input does: no run uses up this count.
    for _ in 0..u64::MAX {
        let Some(taken) = input.next(stdin)? else {
            break;
        };
        lent.answered(out, input, taken)?;
    }
    Ok(())
}

fn main(rt: HostRuntime) -> io::Result<()> {
    run(
        &mut Output::new(&rt),
        &mut rt.stdin(),
        &mut Input::new(),
        &mut Lent::new(),
    )
}
