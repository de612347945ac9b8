//! Answers a text of options, as far as it goes.
ghost use Rattle.std.specs.Prelude.{◌≡◌, ◌≢◌, IfOk, OnErr};
ghost use Rattle.nm_haggle.specs.Output.{Appends, BeginsWith};
ghost use Rattle.nm_haggle.specs.Progress.{Advances};

use crate::answer::answer;
use crate::first_option::{FirstOption, HEAD, first_option};
use crate::next::Next;
use crate::phase::Phase;
use crate::progress::Progress;
use nm_wire::Export;
use std::alloc::AllocError;

/// Answers the options of a text up to its end, or up to the one that ends the haggling.
pub(crate) fn answer_options(
    out: &mut Vec<u8>,
    export: &Export,
    no_zeroes: bool,
    text: &[u8],
) -> Result<Progress, AllocError>
    ensures ok { IfOk result (λ p. Appends out.old.items out.new.items
        (λ replies. Advances export.now (Phase.Options no_zeroes) text.now replies p)) }
    ensures err { OnErr result (BeginsWith out.new.items out.old.items) }
{
    let mut used = 0;
    loop {
        let rest = &text[used..];
        match first_option(rest) {
            FirstOption::Unfinished => {
                return Ok(Progress {
                    used,
                    next: Next::More,
                    phase: Phase::Options { no_zeroes },
                });
            }
            FirstOption::Refused => {
                return Ok(Progress {
                    used: used + HEAD,
                    next: Next::Close { aborted: false },
                    phase: Phase::Over,
                });
            }
            FirstOption::Whole(head) => {
                let end = HEAD + head.length as usize;
                let next = answer(out, export, no_zeroes, head.option, &rest[HEAD..end])?;
                used += end;
                match next {
                    Next::More => {}
                    Next::Transmit | Next::Close { .. } => {
                        return Ok(Progress {
                            used,
                            next,
                            phase: Phase::Over,
                        });
                    }
                }
            }
        }
    }
}
