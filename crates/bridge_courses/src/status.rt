// How a run ends.
ghost use Rattle.std.specs.Prelude.{◌≡◌};
ghost use Rattle.bridge_courses.specs.Statuses.{number_of};
ghost use Rattle.bridge_courses.specs.Executions.{status_by};

/// The status of a run. The program exits with its number.
#[derive(Clone, Copy, PartialEq, Eq)]
pub enum Status {
    /// The command succeeded: its files and the whole report are written.
    Done,
    /// The input is rejected; the report says why.
    Refused,
    /// Usage error.
    Words,
    /// An I/O error while the run read.
    ReadFault,
    /// An I/O error while the run wrote.
    WriteFault,
    /// Out of memory.
    Memory,
    /// Two sides differ.
    Differ,
}

impl Status {
    /// The exit status of the program.
    pub fn number(self) -> u8
        ensures { result ≡ number_of self }
    {
        self as u8
    }
}

/// How a run ends, apart from I/O errors and running out of memory.
#[derive(Clone, Copy, PartialEq, Eq)]
pub enum Verdict {
    /// The command succeeded.
    Done,
    /// The input is rejected.
    Refused,
    /// Usage error.
    Words,
    /// Two sides differ.
    Differ,
}

impl Verdict {
    /// Its status.
    pub fn status(self) -> Status
        ensures { result ≡ status_by self }
    {
        match self {
            Verdict::Done => Status::Done,
            Verdict::Refused => Status::Refused,
            Verdict::Words => Status::Words,
            Verdict::Differ => Status::Differ,
        }
    }
}
