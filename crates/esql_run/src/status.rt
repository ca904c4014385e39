ghost use Rattle.std.specs.Prelude.{◌≡◌};
ghost use Rattle.esql_run.specs.Codes.{code_of};

/// How a run ended.
#[derive(Clone, Copy, Debug, PartialEq, Eq)]
pub enum Status {
    /// The table and the warnings were written.
    Done,
    /// A rule refuses the query at a place, which was written.
    Refused,
    /// The words are not those of a call.
    Usage,
    /// A file is bad at a place, which was written.
    BadData,
    /// A file could not be read.
    ReadFault,
    /// The output or the error stream could not be written.
    WriteFault,
    /// Memory was refused.
    NoMemory,
    /// A regular expression is too large to build.
    PatternRoom,
}

impl Status {
    /// The exit status of the program. Takes no memory.
    pub fn code(self) -> u8
        ensures { result ≡ code_of self }
    {
        match self {
            Status::Done => 0,
            Status::Refused => 1,
            Status::Usage => 2,
            Status::BadData => 3,
            Status::ReadFault => 4,
            Status::WriteFault => 5,
            Status::NoMemory => 6,
            Status::PatternRoom => 7,
        }
    }
}
