ghost use Rattle.std.specs.Prelude.{◌≡◌, ℕ, ◌<◌, List, Option};
ghost use Rattle.nm_script_lib.specs.Grammar.{mirror_form};
ghost use Rattle.nm_script_lib.specs.Reading.{Gives, read, read_line, rest_words};

use crate::words::{Words, is_word};
use nm_choice::Policy;

/// A script's first line: `mirror LEGS BLOCKS REGION CHUNK POLICY FIRST`.
#[derive(Clone, Copy, PartialEq, Eq)]
pub struct MirrorLine {
    /// How many legs there are, 1 to 8.
    pub legs: u8,
    /// How many blocks of 512 bytes each leg has, 1 to 65,536.
    pub blocks: u64,
    /// How many blocks a region has, 1 to 65,536.
    pub region: u64,
    /// How many blocks a copy moves at once, 1 to `region`.
    pub chunk: u64,
    /// How a read picks its leg.
    pub policy: Policy,
    /// The number of the history's first entry, 0 to 2^63.
    pub first: u64,
}

/// The next words, as a mirror line.
fn next_mirror(words: &mut Words<'_>) -> Option<MirrorLine>
    ensures { Gives result (rest_words words.new) (read mirror_form (rest_words words.old)) }
{
    if !is_word(words.next()?, b"mirror") {
        return None;
    }
    let legs = words.within(1, 8)?;
    let blocks = words.within(1, 65_536)?;
    let region = words.within(1, 65_536)?;
    let chunk = words.within(1, region)?;
    let policy = words.policy()?;
    let first = words.within(0, 1 << 63)?;
    let legs = legs as u8;
    Some(MirrorLine {
        legs,
        blocks,
        region,
        chunk,
        policy,
        first,
    })
}

/// The mirror of a line.
#[tactic(auto, unfolding(crate::specs::Reading::read_line))]
pub fn mirror_of(line: &[u8]) -> Option<MirrorLine>
    ensures { result ≡ read_line mirror_form line.now }
{
    let mut words = Words::of(line);
    let mirror = next_mirror(&mut words)?;
    if words.is_at_end() {
        Some(mirror)
    } else {
        None
    }
}
