// The words that a line may begin with. Where a write fails, its error is handed back, and the text ends there.
use print::gather::Output;
use std::io;

const WORDS: &str = "size LEN             the current length, 0 to 66400\n\
    poke AT HEX          stores bytes at AT\n\
    peek AT COUNT        the bytes at AT\n\
    sum                  FNV-1a, 64 bits, over the lent bytes\n\
    check                whether the network is well formed\n\
    fresh N              a network of N rows\n\
    load HEX             a network from an order form\n\
    read ROW REG         reads a register\n\
    write ROW REG VALUE  writes a register\n\
    reset ROW            hardware reset\n\
    timer ROW            the lost-token timer expires\n\
    interrupt ROW        whether the interrupt is active\n\
    step FAULT           one line step, with fault 0 to 3\n\
    data ROW PAGE        the data of a page\n\
    lap ROOM             a lap, with a list of ROOM entries, 0 to 70\n\
    show                 the rows, for a person\n\
    help                 these words\n\
    DONE";

pub fn help<P: Print>(out: &mut Output<P>) -> io::Result<()> {
    out.begin();
    out.text(WORDS.as_bytes())?;
    out.end()
}
