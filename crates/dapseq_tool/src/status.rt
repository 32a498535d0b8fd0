//! How a call ends.
ghost use Rattle.std.specs.Prelude.{◌≡◌};
ghost use Rattle.dapseq_tool.specs.Answers.{dapseq_exit_code};

/// How a call of `dapseq` ended.
#[derive(Clone, Copy, Debug, PartialEq, Eq)]
pub enum Status {
    /// The run came to its end.
    Done,
    /// The job was refused.
    Refused,
    /// The words are no command.
    Usage,
    /// The target, the probe or the sequence stopped the run, a byte of an image was read back as another one, or there
    /// are more than 1,024 components.
    Stopped,
    /// The bench failed.
    BenchFault,
    /// The source failed.
    ReadFault,
    /// The sink failed.
    WriteFault,
    /// Memory was refused.
    OutOfMemory,
    /// The bench answered with a reply that has no meaning.
    ReplyBad,
}

impl Status {
    /// The number with which the program ends: 0 to 8, in the order of the variants.
    pub fn code(&self) -> u8
        ensures { result ≡ dapseq_exit_code self.now }
    {
        match self {
            Status::Done => 0,
            Status::Refused => 1,
            Status::Usage => 2,
            Status::Stopped => 3,
            Status::BenchFault => 4,
            Status::ReadFault => 5,
            Status::WriteFault => 6,
            Status::OutOfMemory => 7,
            Status::ReplyBad => 8,
        }
    }
}
