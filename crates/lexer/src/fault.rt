/// A fault of a text's bytes: the first layer.
#[derive(Clone, Copy)]
pub enum ByteFault {
    /// The text has more than 65,536 bytes.
    TooLong,
    /// The line of that number has a byte that is neither an end of line nor printable.
    Unprintable(usize),
}
