//! The lines of a script that may stand between its mirror line and its steps.
ghost use Rattle.std.specs.Prelude.{◌≡◌, ℕ, ◌<◌, ◌∷◌, List, Option};
ghost use Rattle.nm_script_lib.specs.Grammar.{load_form, start_form};
ghost use Rattle.nm_script_lib.specs.Reading.{Gives, read, read_line, rest_words};

use crate::mirror_line::MirrorLine;
use crate::words::{Words, is_word};

/// `load L B HH`: leg L has bytes HH in block B before the stripe opens.
#[derive(Clone, Copy, PartialEq, Eq)]
pub struct Load {
    /// The leg.
    pub leg: u8,
    /// The block.
    pub block: u64,
    /// The byte that all of the block's bytes are.
    pub fill: u8,
}

/// The next words, as a load.
fn next_load(mirror: &MirrorLine, words: &mut Words<'_>) -> Option<Load>
    ensures { Gives result (rest_words words.new)
        (read (load_form mirror.now) (rest_words words.old)) }
{
    if !is_word(words.next()?, b"load") {
        return None;
    }
    let leg = words.below_u8(mirror.legs)?;
    let block = words.below(mirror.blocks)?;
    let fill = words.byte()?;
    Some(Load { leg, block, fill })
}

/// The load of a line, on such a mirror.
#[tactic(auto, unfolding(crate::specs::Reading::read_line))]
pub fn load_of(mirror: &MirrorLine, line: &[u8]) -> Option<Load>
    ensures { result ≡ read_line (load_form mirror.now) line.now }
{
    let mut words = Words::of(line);
    let load = next_load(mirror, &mut words)?;
    if words.is_at_end() { Some(load) } else { None }
}

/// The next words, as the start of a comparison with a leg.
fn next_start(mirror: &MirrorLine, words: &mut Words<'_>) -> Option<u8>
    ensures { Gives result (rest_words words.new)
        (read (start_form mirror.now) (rest_words words.old)) }
{
    if !is_word(words.next()?, b"start") {
        return None;
    }
    words.below_u8(mirror.legs)
}

/// The leg that a line compares the others with, on such a mirror.
#[tactic(auto, unfolding(crate::specs::Reading::read_line))]
pub fn start_of(mirror: &MirrorLine, line: &[u8]) -> Option<u8>
    ensures { result ≡ read_line (start_form mirror.now) line.now }
{
    let mut words = Words::of(line);
    let master = next_start(mirror, &mut words)?;
    if words.is_at_end() {
        Some(master)
    } else {
        None
    }
}
