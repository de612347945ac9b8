ghost use Rattle.std.specs.Prelude.{◌≡◌, ◌≢◌, IfSome, IfNone};
ghost use Rattle.nm_wire.specs.InfoKind.{info_number};

/// The types of information on an export that are sent ("Option reply types", NBD_REP_INFO).
#[derive(Clone, Copy, PartialEq, Eq, Hash)]
pub enum InfoKind {
    /// NBD_INFO_EXPORT: the export's size and its transmission flags.
    Export,
    /// NBD_INFO_BLOCK_SIZE: the minimum, the preferred and the maximum block size.
    BlockSize,
}

impl InfoKind {
    /// The information type with this number, if it is one that is sent.
    pub fn from_number(number: u16) -> Option<InfoKind>
        ensures known { IfSome result (λ info. info_number info ≡ number) }
        ensures unknown { IfNone result ((info : InfoKind) → info_number info ≢ number) }
    {
        match number {
            0 => Some(InfoKind::Export),
            3 => Some(InfoKind::BlockSize),
            _ => None,
        }
    }

    /// The information type's number on the wire.
    pub fn number(self) -> u16
        ensures { result ≡ info_number self }
    {
        match self {
            InfoKind::Export => 0,
            InfoKind::BlockSize => 3,
        }
    }
}
