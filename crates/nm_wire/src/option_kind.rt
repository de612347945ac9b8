ghost use Rattle.std.specs.Prelude.{◌≡◌, ◌≢◌, IfSome, IfNone};
ghost use Rattle.nm_wire.specs.OptionKind.{option_number};

/// The options that are served ("Option types").
#[derive(Clone, Copy, PartialEq, Eq, Hash)]
pub enum OptionKind {
    /// NBD_OPT_EXPORT_NAME: begin transmission; its reply has no header.
    ExportName,
    /// NBD_OPT_ABORT: end the negotiation and the session.
    Abort,
    /// NBD_OPT_LIST: list the exports' names.
    List,
    /// NBD_OPT_INFO: describe the export.
    Info,
    /// NBD_OPT_GO: describe the export, then begin transmission.
    Go,
}

impl OptionKind {
    /// The option with this number, if it is one that is served.
    pub fn from_number(number: u32) -> Option<OptionKind>
        ensures known { IfSome result (λ option. option_number option ≡ number) }
        ensures unknown { IfNone result ((option : OptionKind) → option_number option ≢ number) }
    {
        match number {
            1 => Some(OptionKind::ExportName),
            2 => Some(OptionKind::Abort),
            3 => Some(OptionKind::List),
            6 => Some(OptionKind::Info),
            7 => Some(OptionKind::Go),
            _ => None,
        }
    }

    /// The option's number on the wire.
    pub fn number(self) -> u32
        ensures { result ≡ option_number self }
    {
        match self {
            OptionKind::ExportName => 1,
            OptionKind::Abort => 2,
            OptionKind::List => 3,
            OptionKind::Info => 6,
            OptionKind::Go => 7,
        }
    }
}
