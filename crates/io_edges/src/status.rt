//! What a program ends with.

ghost use Rattle.std.specs.Prelude.{◌≡◌};
ghost use Rattle.io_edges.specs.Status.{code_of};

/// How a program ended.
#[derive(Clone, Copy, Debug, PartialEq, Eq)]
pub enum Status {
    /// The input was read to its end, and the whole output was written.
    Done,
    /// The program was called with words that it doesn't know.
    Usage,
    /// This line of the input, counted from 1, has no meaning or is too long.
    BadLine(u32),
    /// The input couldn't be read on.
    ReadFault,
    /// The output couldn't be written on.
    WriteFault,
    /// There was no memory.
    Memory,
    /// At this line or step, counted from 1, a limit was reached.
    Limit(u32),
}

impl Status {
    /// The exit status of the process.
    pub fn code(self) -> u8
        ensures { result ≡ code_of self }
    {
        match self {
            Status::Done => 0,
            Status::Usage => 2,
            Status::BadLine(_) => 3,
            Status::ReadFault => 4,
            Status::WriteFault => 5,
            Status::Memory => 6,
            Status::Limit(_) => 7,
        }
    }
}
