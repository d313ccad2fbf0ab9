//! How the program ends.

ghost use Rattle.std.specs.Prelude.{◌≡◌};
ghost use Rattle.orbit_cli.specs.Statuses.{number_of};

/// The statuses with which the program ends.
#[derive(Clone, Copy, Debug, PartialEq, Eq)]
pub enum Status {
    /// The command was done; a run halted with a value.
    Done,
    /// The words are no command.
    Usage,
    /// The text has a fault of the grammar or of the profile.
    SourceRefused,
    /// The run raised a fault.
    SourceFault,
    /// The heap had no room for a request.
    HeapFull,
    /// The stack had no room for a request.
    StackFull,
    /// As many instructions ran as were asked for, and none of them ended the run.
    StepLimit,
    /// The bytes are no image.
    BadImage,
    /// A file could not be read.
    FetchFault,
    /// The image could not be kept, or output could not be written.
    WriteFault,
    /// There was no memory, or this stands for what can't arise on a text or an image. No clause says when it comes.
    Memory,
    /// A count of the text is over its limit.
    Limit,
    /// The machine stopped outside its services.
    MachineStop,
    /// A file has more bytes than the program takes.
    LongFile,
    /// The text has a form that is not built yet.
    Unbuilt,
}

impl Status {
    /// Its number, which is the exit status of the process.
    pub fn number(self) -> u8
        ensures { result ≡ number_of self }
    {
        match self {
            Status::Done => 0,
            Status::Usage => 1,
            Status::SourceRefused => 2,
            Status::SourceFault => 3,
            Status::HeapFull => 4,
            Status::StackFull => 5,
            Status::StepLimit => 6,
            Status::BadImage => 7,
            Status::FetchFault => 8,
            Status::WriteFault => 9,
            Status::Memory => 10,
            Status::Limit => 11,
            Status::MachineStop => 12,
            Status::LongFile => 13,
            Status::Unbuilt => 14,
        }
    }
}
