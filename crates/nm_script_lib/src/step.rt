ghost use Rattle.std.specs.Prelude.{◌≡◌, ℕ, ◌<◌, ◌∷◌, List, Option};
ghost use Rattle.nm_script_lib.specs.Grammar.{step_form, patch_args, run_args, get_args};
ghost use Rattle.nm_script_lib.specs.Grammar.{ticket_form};
ghost use Rattle.nm_script_lib.specs.Grammar.{copy_form, leg_form, look_form, most_run, run_form};
ghost use Rattle.nm_script_lib.specs.Reading.{Gives, read, read_line, rest_words};

use crate::mirror_line::MirrorLine;
use crate::words::{Words, is_word};

/// A step of a script: what one of its lines asks for.
#[derive(Clone, Copy, PartialEq, Eq)]
pub enum Step {
    /// A step of the stripe.
    Ask(StripeStep),
    /// `fuse L K`: the K-th call of leg L from now fails, once.
    Fuse { leg: u8, call: u64 },
    /// `peek L B`: what leg L has in block B, without a call of the leg.
    Peek { leg: u8, block: u64 },
    /// `lose L`: leg L, which is out, loses power.
    Lose { leg: u8 },
    /// `state`: the stripe's master and its legs' states.
    State,
}

/// A step of the stripe, as a script asks for it.
#[derive(Clone, Copy, PartialEq, Eq)]
pub enum StripeStep {
    /// `begin B HH`: a write of 512 bytes HH to block B begins.
    Begin {
        block: u64,
        fill: u8,
    },
    /// `zero B`: a write of zeroes to block B begins.
    Zero {
        block: u64,
    },
    /// `patch B FROM LEN HH`: a write of LEN bytes HH to block B, from its byte FROM on, begins.
    Patch {
        block: u64,
        from: u16,
        len: u16,
        fill: u8,
    },
    /// `push T L`: the write of ticket T goes to leg L.
    Push {
        ticket: u64,
        leg: u8,
    },
    /// `claim T`: the finished write of ticket T is taken away.
    Claim {
        ticket: u64,
    },
    /// `read B`: block B is read.
    Read {
        block: u64,
    },
    /// `run B N HH`: a write of bytes HH to N blocks from block B on begins.
    Run {
        block: u64,
        count: u64,
        fill: u8,
    },
    /// `get B N`: N blocks from block B on are read.
    Get {
        block: u64,
        count: u64,
    },
    /// `fail L`: leg L goes out.
    Fail {
        leg: u8,
    },
    /// `attach L`: leg L, which is out, joins again.
    Attach {
        leg: u8,
    },
    /// `return L`: leg L, which is out, joins again as one that may have lost what it has not
    /// synced.
    Return {
        leg: u8,
    },
    /// `replace L HH`: a leg of bytes HH takes the place of leg L, which is out, and joins.
    Replace {
        leg: u8,
        fill: u8,
    },
    /// `copy L`, `copies L MOST`: one block, or up to MOST, are read or written for leg L, which is
    /// joining.
    Copy {
        leg: u8,
        most: u64,
    },
    /// `promote L`: leg L, which is joining, is called in sync.
    Promote {
        leg: u8,
    },
    /// `sync L`: what leg L holds is made durable.
    Sync {
        leg: u8,
    },
    /// `flush L`: the same; where it fails, no more of the leg is behind than after a failed write.
    Flush {
        leg: u8,
    },
}

/// The step that this word begins, of those that the stripe has no part in, with its arguments.
#[tactic(auto, unfolding(crate::specs::Grammar::look_form))]
fn look_of(mirror: &MirrorLine, word: &[u8], words: &mut Words<'_>) -> Option<Step>
    ensures { Gives result (rest_words words.new)
        (read (look_form mirror.now) (word.now ∷ rest_words words.old)) }
{
    Some(if is_word(word, b"fuse") {
        let leg = words.below_u8(mirror.legs)?;
        let call = words.within(1, u64::MAX)?;
        Step::Fuse { leg, call }
    } else if is_word(word, b"peek") {
        let leg = words.below_u8(mirror.legs)?;
        let block = words.below(mirror.blocks)?;
        Step::Peek { leg, block }
    } else if is_word(word, b"lose") {
        let leg = words.below_u8(mirror.legs)?;
        Step::Lose { leg }
    } else if is_word(word, b"state") {
        Step::State
    } else {
        return None;
    })
}

/// The step that this word begins, of those that copy a leg, or make it the master or durable, and
/// of `look_of`'s.
fn copy_step_of(mirror: &MirrorLine, word: &[u8], words: &mut Words<'_>) -> Option<Step>
    ensures { Gives result (rest_words words.new)
        (read (copy_form mirror.now) (word.now ∷ rest_words words.old)) }
{
    Some(Step::Ask(if is_word(word, b"copy") {
        let leg = words.below_u8(mirror.legs)?;
        StripeStep::Copy { leg, most: 1 }
    } else if is_word(word, b"copies") {
        let leg = words.below_u8(mirror.legs)?;
        let most = words.within(1, u64::MAX)?;
        StripeStep::Copy { leg, most }
    } else if is_word(word, b"promote") {
        let leg = words.below_u8(mirror.legs)?;
        StripeStep::Promote { leg }
    } else if is_word(word, b"sync") {
        let leg = words.below_u8(mirror.legs)?;
        StripeStep::Sync { leg }
    } else if is_word(word, b"flush") {
        let leg = words.below_u8(mirror.legs)?;
        StripeStep::Flush { leg }
    } else {
        return look_of(mirror, word, words);
    }))
}

/// The step that this word begins, of those that change a leg and of `copy_step_of`'s.
#[tactic(auto, unfolding(crate::specs::Grammar::leg_form))]
fn leg_step_of(mirror: &MirrorLine, word: &[u8], words: &mut Words<'_>) -> Option<Step>
    ensures { Gives result (rest_words words.new)
        (read (leg_form mirror.now) (word.now ∷ rest_words words.old)) }
{
    Some(Step::Ask(if is_word(word, b"fail") {
        let leg = words.below_u8(mirror.legs)?;
        StripeStep::Fail { leg }
    } else if is_word(word, b"attach") {
        let leg = words.below_u8(mirror.legs)?;
        StripeStep::Attach { leg }
    } else if is_word(word, b"return") {
        let leg = words.below_u8(mirror.legs)?;
        StripeStep::Return { leg }
    } else if is_word(word, b"replace") {
        let leg = words.below_u8(mirror.legs)?;
        let fill = words.byte()?;
        StripeStep::Replace { leg, fill }
    } else {
        return copy_step_of(mirror, word, words);
    }))
}

/// The next words, as the arguments of a write of a part of a block.
#[tactic(auto, unfolding(crate::specs::Grammar::patch_args))]
fn patch_of(mirror: &MirrorLine, words: &mut Words<'_>) -> Option<Step>
    ensures { Gives result (rest_words words.new)
        (read (patch_args mirror.now) (rest_words words.old)) }
{
    let block = words.below(mirror.blocks)?;
    let from = words.below_u16(512)?;
    let len = words.within_u16(1, 512 - from)?;
    let fill = words.byte()?;
    Some(Step::Ask(StripeStep::Patch {
        block,
        from,
        len,
        fill,
    }))
}

/// How many blocks a run may have that begins with this block.
fn most_run(mirror: &MirrorLine, block: u64) -> u64
    requires { block < mirror.now.blocks }
    ensures { result ≡ most_run mirror.now block }
{
    if mirror.region == 0 {
        return 0;
    }
    let region = mirror.region - block % mirror.region;
    region.min(mirror.blocks - block).min(128)
}

/// The next words, as the arguments of a write of a run.
#[tactic(auto, unfolding(crate::specs::Grammar::run_args))]
fn run_of(mirror: &MirrorLine, words: &mut Words<'_>) -> Option<Step>
    ensures { Gives result (rest_words words.new)
        (read (run_args mirror.now) (rest_words words.old)) }
{
    let block = words.below(mirror.blocks)?;
    let count = words.within(1, most_run(mirror, block))?;
    let fill = words.byte()?;
    Some(Step::Ask(StripeStep::Run { block, count, fill }))
}

/// The next words, as the arguments of a read of a run.
#[tactic(auto, unfolding(crate::specs::Grammar::get_args))]
fn get_of(mirror: &MirrorLine, words: &mut Words<'_>) -> Option<Step>
    ensures { Gives result (rest_words words.new)
        (read (get_args mirror.now) (rest_words words.old)) }
{
    let block = words.below(mirror.blocks)?;
    let count = words.within(1, most_run(mirror, block))?;
    Some(Step::Ask(StripeStep::Get { block, count }))
}

/// The step that this word begins, of those on runs and of `leg_step_of`'s.
#[tactic(auto, unfolding(crate::specs::Grammar::run_form))]
fn run_step_of(mirror: &MirrorLine, word: &[u8], words: &mut Words<'_>) -> Option<Step>
    ensures { Gives result (rest_words words.new)
        (read (run_form mirror.now) (word.now ∷ rest_words words.old)) }
{
    if is_word(word, b"run") {
        run_of(mirror, words)
    } else if is_word(word, b"get") {
        get_of(mirror, words)
    } else {
        leg_step_of(mirror, word, words)
    }
}

/// The step that this word begins, of those that go on with a write or read a block, and of
/// `run_step_of`'s.
fn ticket_step_of(mirror: &MirrorLine, word: &[u8], words: &mut Words<'_>) -> Option<Step>
    ensures { Gives result (rest_words words.new)
        (read (ticket_form mirror.now) (word.now ∷ rest_words words.old)) }
{
    Some(Step::Ask(if is_word(word, b"push") {
        let ticket = words.number()?;
        let leg = words.below_u8(mirror.legs)?;
        StripeStep::Push { ticket, leg }
    } else if is_word(word, b"claim") {
        let ticket = words.number()?;
        StripeStep::Claim { ticket }
    } else if is_word(word, b"read") {
        let block = words.below(mirror.blocks)?;
        StripeStep::Read { block }
    } else {
        return run_step_of(mirror, word, words);
    }))
}

/// The step that this word begins, with its arguments.
#[tactic(auto, unfolding(crate::specs::Grammar::step_form))]
fn any_step_of(mirror: &MirrorLine, word: &[u8], words: &mut Words<'_>) -> Option<Step>
    ensures { Gives result (rest_words words.new)
        (read (step_form mirror.now) (word.now ∷ rest_words words.old)) }
{
    Some(Step::Ask(if is_word(word, b"begin") {
        let block = words.below(mirror.blocks)?;
        let fill = words.byte()?;
        StripeStep::Begin { block, fill }
    } else if is_word(word, b"zero") {
        let block = words.below(mirror.blocks)?;
        StripeStep::Zero { block }
    } else if is_word(word, b"patch") {
        return patch_of(mirror, words);
    } else {
        return ticket_step_of(mirror, word, words);
    }))
}

/// The next words, as a step.
#[tactic(auto, unfolding(crate::specs::Grammar::step_form))]
fn next_step(mirror: &MirrorLine, words: &mut Words<'_>) -> Option<Step>
    ensures { Gives result (rest_words words.new)
        (read (step_form mirror.now) (rest_words words.old)) }
{
    let word = words.next()?;
    any_step_of(mirror, word, words)
}

/// The step of a line, on such a mirror.
#[tactic(auto, unfolding(crate::specs::Reading::read_line))]
pub fn step_of(mirror: &MirrorLine, line: &[u8]) -> Option<Step>
    ensures { result ≡ read_line (step_form mirror.now) line.now }
{
    let mut words = Words::of(line);
    let step = next_step(mirror, &mut words)?;
    if words.is_at_end() { Some(step) } else { None }
}
