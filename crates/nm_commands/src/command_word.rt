//! The words of the control port's lines, a row for each form of a command.
ghost use Rattle.std.specs.Prelude.{◌≡◌, slice_get};
ghost use Rattle.nm_commands.specs.ControlLine.{IsRow, argument_of, help_of, least_of, most_of};
ghost use Rattle.nm_commands.specs.ControlLine.{rows, word_of};

/// How many rows the table has.
pub const ROWS: usize = 23;

/// How many seconds a `quit` gives the clients at most: a day.
const MOST_SECONDS: u64 = 86_400;

/// At how many MiB a second legs are copied at most.
const MOST_MIB: u64 = 65_535;

/// What follows a word in its line, behind a blank.
#[derive(Clone, Copy, PartialEq, Eq)]
pub enum Argument {
    /// Nothing.
    Nothing,
    /// The number of a leg.
    Leg,
    /// The number of a stripe.
    Stripe,
    /// The number of a client.
    Client,
    /// So many MiB a second.
    Mib,
    /// So many seconds.
    Seconds,
}

impl Argument {
    /// The least number that may follow.
    pub fn least(self) -> u64
        ensures { result ≡ least_of self }
    {
        match self {
            Argument::Mib => 1,
            _ => 0,
        }
    }

    /// The greatest number that may follow.
    pub fn most(self) -> u64
        ensures { result ≡ most_of self }
    {
        match self {
            Argument::Mib => MOST_MIB,
            Argument::Seconds => MOST_SECONDS,
            _ => u64::MAX,
        }
    }

    /// Its name, if something follows.
    pub fn name(self) -> Option<&'static str> {
        match self {
            Argument::Nothing => None,
            Argument::Leg => Some("leg"),
            Argument::Stripe => Some("stripe"),
            Argument::Client => Some("client"),
            Argument::Mib => Some("mib"),
            Argument::Seconds => Some("seconds"),
        }
    }
}

/// A row of the table: a word, and what follows it.
#[derive(Clone, Copy, PartialEq, Eq)]
pub enum CommandWord {
    /// The state of each stripe.
    Status,
    /// The regions that could not be read.
    Unread,
    /// The last reads and writes of a stripe.
    History,
    /// What the server tells of itself.
    Info,
    /// What the server has counted.
    Metrics,
    /// A leg goes out.
    Fail,
    /// A leg is copied again.
    Attach,
    /// A leg's file is opened anew.
    Replace,
    /// The last leg goes out for good.
    Retire,
    /// Copies to a leg wait.
    Pause,
    /// Copies to a leg go on.
    Resume,
    /// A stripe is opened anew.
    Reopen,
    /// Each stripe that has stopped is opened anew.
    ReopenAll,
    /// The rate of copies.
    CopyRate,
    /// The rate of copies is set.
    SetCopyRate,
    /// The rate of copies is what clients leave.
    DefaultCopyRate,
    /// The legs in sync are compared.
    Verify,
    /// They are compared, and what differs on a leg is written anew.
    VerifyRepair,
    /// The comparison ends.
    VerifyStop,
    /// The server ends.
    Quit,
    /// The server ends within some time.
    QuitWithin,
    /// The clients that are connected.
    Clients,
    /// A client is closed.
    Kick,
}

impl CommandWord {
    /// The row at this place of the table, if there is one. Each row has a place.
    pub fn nth(place: usize) -> Option<CommandWord>
        ensures row { result ≡ slice_get rows place }
        ensures all { (word : CommandWord) → IsRow word }
    {
        let rows = [
            CommandWord::Status,
            CommandWord::Unread,
            CommandWord::History,
            CommandWord::Info,
            CommandWord::Metrics,
            CommandWord::Fail,
            CommandWord::Attach,
            CommandWord::Replace,
            CommandWord::Retire,
            CommandWord::Pause,
            CommandWord::Resume,
            CommandWord::Reopen,
            CommandWord::ReopenAll,
            CommandWord::CopyRate,
            CommandWord::SetCopyRate,
            CommandWord::DefaultCopyRate,
            CommandWord::Verify,
            CommandWord::VerifyRepair,
            CommandWord::VerifyStop,
            CommandWord::Quit,
            CommandWord::QuitWithin,
            CommandWord::Clients,
            CommandWord::Kick,
        ];
        if place < ROWS {
            Some(rows[place])
        } else {
            None
        }
    }

    /// The word, as lines begin with it.
    pub fn text(self) -> &'static str
        ensures { result.now ≡ word_of self }
    {
        match self {
            CommandWord::Status => "status",
            CommandWord::Unread => "unread",
            CommandWord::History => "history",
            CommandWord::Info => "info",
            CommandWord::Metrics => "metrics",
            CommandWord::Fail => "fail",
            CommandWord::Attach => "attach",
            CommandWord::Replace => "replace",
            CommandWord::Retire => "retire",
            CommandWord::Pause => "pause",
            CommandWord::Resume => "resume",
            CommandWord::Reopen => "reopen",
            CommandWord::ReopenAll => "reopen all",
            CommandWord::CopyRate => "copy-rate",
            CommandWord::SetCopyRate => "copy-rate",
            CommandWord::DefaultCopyRate => "copy-rate default",
            CommandWord::Verify => "verify",
            CommandWord::VerifyRepair => "verify repair",
            CommandWord::VerifyStop => "verify stop",
            CommandWord::Quit => "quit",
            CommandWord::QuitWithin => "quit",
            CommandWord::Clients => "clients",
            CommandWord::Kick => "kick",
        }
    }

    /// What follows the word.
    pub fn argument(self) -> Argument
        ensures { result ≡ argument_of self }
    {
        match self {
            CommandWord::History => Argument::Stripe,
            CommandWord::Fail => Argument::Leg,
            CommandWord::Attach => Argument::Leg,
            CommandWord::Replace => Argument::Leg,
            CommandWord::Retire => Argument::Leg,
            CommandWord::Pause => Argument::Leg,
            CommandWord::Resume => Argument::Leg,
            CommandWord::Reopen => Argument::Stripe,
            CommandWord::SetCopyRate => Argument::Mib,
            CommandWord::VerifyRepair => Argument::Leg,
            CommandWord::QuitWithin => Argument::Seconds,
            CommandWord::Kick => Argument::Client,
            _ => Argument::Nothing,
        }
    }

    /// What the row is for, in a line.
    pub fn help(self) -> &'static str
        ensures { result.now ≡ help_of self }
    {
        match self {
            CommandWord::Status => "how each stripe stands",
            CommandWord::Unread => "the regions that could not be read",
            CommandWord::History => "the last reads and writes of a stripe",
            CommandWord::Info => "what the server tells of itself",
            CommandWord::Metrics => "what the server has counted",
            CommandWord::Fail => "take a leg out",
            CommandWord::Attach => "copy a leg again",
            CommandWord::Replace => "open a leg's file anew and copy it whole",
            CommandWord::Retire => "take the last leg out for good",
            CommandWord::Pause => "copy no more to a leg until it is resumed",
            CommandWord::Resume => "copy to a leg again that was paused",
            CommandWord::Reopen => "open a stripe that stopped anew",
            CommandWord::ReopenAll => "open each stripe that stopped anew",
            CommandWord::CopyRate => "at what rate legs are copied",
            CommandWord::SetCopyRate => "copy legs at so many MiB a second",
            CommandWord::DefaultCopyRate => "copy legs at the rate that clients leave",
            CommandWord::Verify => "compare the legs in sync",
            CommandWord::VerifyRepair => "write what differs on a leg anew",
            CommandWord::VerifyStop => "end the comparison where it is",
            CommandWord::Quit => "end the server once its clients have left",
            CommandWord::QuitWithin => "end the server, and cut clients off after so many seconds",
            CommandWord::Clients => "who is connected",
            CommandWord::Kick => "close a client's connection",
        }
    }
}
