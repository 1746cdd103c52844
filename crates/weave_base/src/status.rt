//! How the program ends.

ghost use Rattle.std.specs.Prelude.{◌≡◌};
ghost use Rattle.weave_base.specs.Statuses.{code_of};

/// How a command ends. Where several hold at once, a violated monitor stands before the ends of a run.
#[derive(Clone, Copy, Debug, PartialEq, Eq)]
pub enum Status {
    /// The command did what it is for, and no monitor was violated or rejected.
    Done,
    /// Some monitor is violated or rejected.
    Violated,
    /// The command's words don't parse.
    Words,
    /// An input breaks a rule of the language or of its monitors.
    Refused,
    /// A file couldn't be loaded, or the input couldn't be read.
    ReadFault,
    /// The output or the report couldn't be written.
    WriteFault,
    /// Want of memory.
    NoMemory,
    /// The run ended by a fault of the program that was run.
    RunFault,
    /// The run has more steps than it was given.
    StepsSpent,
    /// The run needs more memory cells than it was given.
    CellsFull,
    /// The run needs more open calls than it was given.
    CallsFull,
}

impl Status {
    /// The exit status of the process, 0 to 10.
    pub fn code(self) -> u8
        ensures { result ≡ code_of self }
    {
        match self {
            Status::Done => 0,
            Status::Violated => 1,
            Status::Words => 2,
            Status::Refused => 3,
            Status::ReadFault => 4,
            Status::WriteFault => 5,
            Status::NoMemory => 6,
            Status::RunFault => 7,
            Status::StepsSpent => 8,
            Status::CellsFull => 9,
            Status::CallsFull => 10,
        }
    }
}

#[cfg(test)]
mod tests {
    use super::*;

    #[test]
    fn codes_follow_the_order(rt: HostRuntime) {
        let codes = [
            (Status::Done, 0),
            (Status::Violated, 1),
            (Status::Words, 2),
            (Status::Refused, 3),
            (Status::ReadFault, 4),
            (Status::WriteFault, 5),
            (Status::NoMemory, 6),
            (Status::RunFault, 7),
            (Status::StepsSpent, 8),
            (Status::CellsFull, 9),
            (Status::CallsFull, 10),
        ];
        for (status, code) in codes {
            assert_eq!(rt; status.code(), code, "of {status:?}");
        }
    }
}
