ghost use Rattle.std.specs.Prelude.{◌≡◌};

use nm_commands::ClientSettings;

/// What holds for each session.
#[derive(Clone, Copy, PartialEq, Eq)]
pub struct SessionRules {
    /// How many bytes the replies to what is outstanding in it may carry.
    pub reply_bytes: usize,
    /// After how many seconds without a request it is closed, where it is.
    pub idle_limit: Option<u32>,
    /// Whether its begin and its end are logged.
    pub is_verbose: bool,
}

impl SessionRules {
    /// What the settings of clients ask for, where the replies may carry so many bytes.
    pub fn of(clients: &ClientSettings<'_>, reply_bytes: usize) -> SessionRules
        ensures replies { result.reply_bytes ≡ reply_bytes }
        ensures idle_limit { result.idle_limit ≡ clients.now.idle_limit }
        ensures verbose { result.is_verbose ≡ clients.now.verbose }
    {
        SessionRules {
            reply_bytes,
            idle_limit: clients.idle_limit,
            is_verbose: clients.verbose,
        }
    }
}
