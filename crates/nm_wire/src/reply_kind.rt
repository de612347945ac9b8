ghost use Rattle.std.specs.Prelude.{◌≡◌, ◌≢◌, IfSome, IfNone};
ghost use Rattle.nm_wire.specs.ReplyKind.{reply_number};

/// The types of replies to options that are sent ("Option reply types").
#[derive(Clone, Copy, PartialEq, Eq, Hash)]
pub enum ReplyKind {
    /// NBD_REP_ACK: done.
    Ack,
    /// NBD_REP_SERVER: an export's name.
    Server,
    /// NBD_REP_INFO: information on the export.
    Info,
    /// NBD_REP_ERR_UNSUP: the option is not supported.
    Unsupported,
    /// NBD_REP_ERR_INVALID: the option's data are malformed.
    Invalid,
    /// NBD_REP_ERR_UNKNOWN: there is no export of that name.
    Unknown,
}

impl ReplyKind {
    /// The reply type with this number, if it is one that is sent.
    pub fn from_number(number: u32) -> Option<ReplyKind>
        ensures known { IfSome result (λ kind. reply_number kind ≡ number) }
        ensures unknown { IfNone result ((kind : ReplyKind) → reply_number kind ≢ number) }
    {
        match number {
            1 => Some(ReplyKind::Ack),
            2 => Some(ReplyKind::Server),
            3 => Some(ReplyKind::Info),
            0x8000_0001 => Some(ReplyKind::Unsupported),
            0x8000_0003 => Some(ReplyKind::Invalid),
            0x8000_0006 => Some(ReplyKind::Unknown),
            _ => None,
        }
    }

    /// The type's number on the wire.
    pub fn number(self) -> u32
        ensures { result ≡ reply_number self }
    {
        match self {
            ReplyKind::Ack => 1,
            ReplyKind::Server => 2,
            ReplyKind::Info => 3,
            ReplyKind::Unsupported => 0x8000_0001,
            ReplyKind::Invalid => 0x8000_0003,
            ReplyKind::Unknown => 0x8000_0006,
        }
    }
}
