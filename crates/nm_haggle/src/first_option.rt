//! What a text of options begins with.
ghost use Rattle.nm_haggle.specs.FirstOption.{IsFirstOption};

use nm_wire::sizes::MAX_OPTION_DATA;
use nm_wire::{OptionHead, WireFault};

/// How many bytes the header of an option has.
pub(crate) const HEAD: usize = 16;

/// The most bytes that are held: one option with its data.
pub(crate) const MOST_HELD: usize = HEAD + MAX_OPTION_DATA as usize;

/// What a text of options begins with.
#[derive(Clone, Copy)]
pub(crate) enum FirstOption {
    /// An incomplete option.
    Unfinished,
    /// A 16-byte header that closes the session.
    Refused,
    /// The header of an option whose data are all there.
    Whole(OptionHead),
}

/// Judges what a text of options begins with, by its first 16 bytes and its length.
pub(crate) fn first_option(text: &[u8]) -> FirstOption
    ensures { IsFirstOption text.now result }
{
    match OptionHead::get(text) {
        Err(WireFault::Short) => FirstOption::Unfinished,
        Err(WireFault::Magic) => FirstOption::Refused,
        Ok(head) => {
            if head.length > MAX_OPTION_DATA {
                FirstOption::Refused
            } else if text.len() - HEAD < head.length as usize {
                FirstOption::Unfinished
            } else {
                FirstOption::Whole(head)
            }
        }
    }
}
