// Which side of a card: what it sends, or what it receives.
#[derive(Clone, Copy, Debug, PartialEq, Eq)]
pub enum Way {
    Transmit,
    Receive,
}
