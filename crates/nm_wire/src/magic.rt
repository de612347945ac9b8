//! The magic numbers with which the greeting and the messages begin.

/// "NBDMAGIC" in ASCII: the first number of the greeting ("Newstyle negotiation").
pub const GREETING_MAGIC: u64 = 0x4e42_444d_4147_4943;

/// "IHAVEOPT" in ASCII: the second number of the greeting, and the first of each option that the
/// client sends ("Newstyle negotiation", "Fixed newstyle negotiation").
pub const OPTION_MAGIC: u64 = 0x4948_4156_454f_5054;

/// The first number of each reply to an option ("Fixed newstyle negotiation").
pub const OPTION_REPLY_MAGIC: u64 = 0x0003_e889_0455_65a9;

/// The first number of each request ("Request message").
pub const REQUEST_MAGIC: u32 = 0x2560_9513;

/// The first number of each simple reply ("Simple reply message").
pub const SIMPLE_REPLY_MAGIC: u32 = 0x6744_6698;
