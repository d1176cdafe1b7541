ghost use Rattle.std.specs.Prelude.{◌≡◌};
ghost use Rattle.operator_cli.specs.Statuses as spec;

use op_run::Stop;

/// How a run of the program ended.
#[derive(Clone, Copy, Debug, PartialEq, Eq)]
pub enum Status {
    /// All was read to its end, and each answer was Admitted, Unselected or Deleted.
    Done,
    /// All was read to its end, and some report line has another answer.
    Refused,
    /// The words have no reading.
    Usage,
    /// The source failed.
    InputFault,
    /// The folder failed.
    FolderFault,
    /// A sink failed.
    OutputFault,
    /// There is more input than is read.
    InputLimit,
    /// Memory was refused.
    NoMemory,
}

impl Status {
    /// The status of a run to its end.
    pub fn of_run(good: bool) -> Status
        ensures { result ≡ spec.status_of_well good }
    {
        if good { Status::Done } else { Status::Refused }
    }

    /// The status of a run that stopped.
    pub fn of_stop(stop: Stop) -> Status
        ensures { result ≡ spec.status_of_stop stop }
    {
        match stop {
            Stop::Input => Status::InputFault,
            Stop::Limit => Status::InputLimit,
            Stop::Output => Status::OutputFault,
            Stop::Memory => Status::NoMemory,
        }
    }

    /// The text that is written last on standard error, with its newline; empty after Done and
    /// Refused.
    pub fn text(self) -> &'static str
        ensures { result.now ≡ spec.status_text self }
    {
        match self {
            Status::Done | Status::Refused => "",
            Status::Usage => {
                "usage: operator compile DIR [--part PART] | apply DIR [--each] [--part PART] | run DIR\n"
            }
            Status::InputFault => "fault: input\n",
            Status::FolderFault => "fault: folder\n",
            Status::OutputFault => "fault: output\n",
            Status::InputLimit => "limit: input\n",
            Status::NoMemory => "memory\n",
        }
    }

    /// The exit status of the process.
    pub fn code(self) -> u8
        ensures { result ≡ spec.exit_code self }
    {
        match self {
            Status::Done => 0,
            Status::Refused => 1,
            Status::Usage => 2,
            Status::InputFault => 3,
            Status::FolderFault => 4,
            Status::OutputFault => 5,
            Status::InputLimit => 6,
            Status::NoMemory => 9,
        }
    }
}
