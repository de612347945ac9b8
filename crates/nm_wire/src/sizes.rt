//! Sizes in bytes that the protocol fixes or leaves to the server.

/// The minimum block size that clients are told: requests need no alignment ("Block size
/// constraints").
pub const MIN_BLOCK: u32 = 1;

/// The preferred block size that clients are told ("Block size constraints").
pub const PREFERRED_BLOCK: u32 = 4_096;

/// The maximum block size that clients are told, which is also the most data that one READ or
/// WRITE carries ("Block size constraints").
pub const MAX_PAYLOAD: u32 = 33_554_432;

/// The most data that an option carries; the protocol leaves this limit to the server ("Fixed
/// newstyle negotiation").
pub const MAX_OPTION_DATA: u32 = 65_536;

/// How many zeroes end the reply to NBD_OPT_EXPORT_NAME unless both sides set NO_ZEROES ("Newstyle
/// negotiation").
pub const EXPORT_NAME_ZEROES: usize = 124;
