//! Answers a text of the handshake, from either of its phases on.
ghost use Rattle.std.specs.Prelude.{◌≡◌, ◌≢◌, IfOk, OnErr};
ghost use Rattle.nm_haggle.specs.Output.{Appends, BeginsWith};
ghost use Rattle.nm_haggle.specs.Progress.{Advances};

use crate::next::Next;
use crate::options::answer_options;
use crate::phase::Phase;
use crate::progress::Progress;
use nm_wire::number::get_u32;
use nm_wire::{ClientFlags, Export};
use std::alloc::AllocError;

/// How many bytes the client's flags have.
const FLAGS: usize = 4;

/// Answers a text that begins with the client's flags.
fn answer_flags(out: &mut Vec<u8>, export: &Export, text: &[u8]) -> Result<Progress, AllocError>
    ensures ok { IfOk result (λ p. Appends out.old.items out.new.items
        (λ replies. Advances export.now Phase.Flags text.now replies p)) }
    ensures err { OnErr result (BeginsWith out.new.items out.old.items) }
{
    if text.len() < FLAGS {
        return Ok(Progress {
            used: 0,
            next: Next::More,
            phase: Phase::Flags,
        });
    }
    let flags = get_u32(text, 0);
    let known = ClientFlags::FIXED_NEWSTYLE.0 | ClientFlags::NO_ZEROES.0;
    if flags & known != flags {
        return Ok(Progress {
            used: FLAGS,
            next: Next::Close { aborted: false },
            phase: Phase::Over,
        });
    }
    let no_zeroes = flags & ClientFlags::NO_ZEROES.0 == ClientFlags::NO_ZEROES.0;
    let progress = answer_options(out, export, no_zeroes, &text[FLAGS..])?;
    Ok(Progress {
        used: FLAGS + progress.used,
        next: progress.next,
        phase: progress.phase,
    })
}

/// Answers a text from a phase on in which the haggling is not over.
pub(crate) fn answer_text(
    out: &mut Vec<u8>,
    export: &Export,
    phase: Phase,
    text: &[u8],
) -> Result<Progress, AllocError>
    requires { phase ≢ Phase.Over }
    ensures ok { IfOk result (λ p. Appends out.old.items out.new.items
        (λ replies. Advances export.now phase text.now replies p)) }
    ensures err { OnErr result (BeginsWith out.new.items out.old.items) }
{
    match phase {
        Phase::Flags => answer_flags(out, export, text),
        Phase::Options { no_zeroes } => answer_options(out, export, no_zeroes, text),
        Phase::Over => unreachable!(),
    }
}
