ghost use Rattle.std.specs.Prelude.{◌≡◌, ◌≢◌, IfSome, IfNone};
ghost use Rattle.nm_wire.specs.Command.{command_number};

/// The commands that are served ("Request types").
#[derive(Clone, Copy, PartialEq, Eq, Hash)]
pub enum Command {
    /// NBD_CMD_READ: send the data back.
    Read,
    /// NBD_CMD_WRITE: store the data that follow the request's header.
    Write,
    /// NBD_CMD_DISC: end the session.
    Disconnect,
    /// NBD_CMD_FLUSH: make every write that was replied to durable.
    Flush,
    /// NBD_CMD_TRIM: the data are no longer needed.
    Trim,
    /// NBD_CMD_WRITE_ZEROES: store zeroes.
    WriteZeroes,
}

impl Command {
    /// The command with this number, if it is one that is served.
    pub fn from_number(number: u16) -> Option<Command>
        ensures known { IfSome result (λ command. command_number command ≡ number) }
        ensures unknown { IfNone result ((command : Command) → command_number command ≢ number) }
    {
        match number {
            0 => Some(Command::Read),
            1 => Some(Command::Write),
            2 => Some(Command::Disconnect),
            3 => Some(Command::Flush),
            4 => Some(Command::Trim),
            6 => Some(Command::WriteZeroes),
            _ => None,
        }
    }

    /// The command's number on the wire.
    pub fn number(self) -> u16
        ensures { result ≡ command_number self }
    {
        match self {
            Command::Read => 0,
            Command::Write => 1,
            Command::Disconnect => 2,
            Command::Flush => 3,
            Command::Trim => 4,
            Command::WriteZeroes => 6,
        }
    }
}
