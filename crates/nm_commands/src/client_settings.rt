/// What clients are served, and how many.
#[derive(Clone, Copy, PartialEq, Eq)]
pub struct ClientSettings<'a> {
    /// The export's name.
    pub export: &'a str,
    /// Whether clients may only read.
    pub read_only: bool,
    /// How many sessions may be served at once.
    pub sessions: u8,
    /// After how many seconds without a request a client is closed, where it is.
    pub idle_limit: Option<u32>,
    /// Whether sessions that begin and end are logged.
    pub verbose: bool,
}
