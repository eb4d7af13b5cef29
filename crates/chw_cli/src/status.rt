//! The status with which the program ends.
ghost use Rattle.std.specs.Prelude.{◌≡◌};
ghost use Rattle.chw_cli.specs.Lines.{code_of};

/// How a run of the program ended.
#[derive(Clone, Copy, Debug, PartialEq, Eq)]
pub enum Status {
    /// The answer was written whole.
    Ok,
    /// A named restriction is broken.
    Refused,
    /// The words are no command.
    Words,
    /// The file isn't there, or couldn't be read.
    Read,
    /// The answer couldn't be written.
    Write,
    /// The budget of rewrites is spent.
    Spent,
    /// Memory was wanting.
    Memory,
    /// A line of the stimulus is broken.
    Stimulus,
    /// The Verilog text is broken.
    Verilog,
}

impl Status {
    /// The exit code of the program: 0 to 8, in the order of the variants.
    pub fn code(&self) -> u8
        ensures { result ≡ code_of self.now }
    {
        match self {
            Status::Ok => 0,
            Status::Refused => 1,
            Status::Words => 2,
            Status::Read => 3,
            Status::Write => 4,
            Status::Spent => 5,
            Status::Memory => 6,
            Status::Stimulus => 7,
            Status::Verilog => 8,
        }
    }
}
