//! Answers a piece of the client's text after the bytes that are held of its first element.
ghost use Rattle.std.specs.Prelude.{◌≡◌, ◌≢◌, ◌≤◌, ◌-◌, [], ◌++◌, length, take, IfOk, OnOk, OnErr};
ghost use Rattle.nm_haggle.specs.Haggling.{state, IsAwaited};
ghost use Rattle.nm_haggle.specs.Output.{Appends, BeginsWith};
ghost use Rattle.nm_haggle.specs.Progress.{Advances, Reads};

use crate::first_option::MOST_HELD;
use crate::handshake::answer_text;
use crate::next::Next;
use crate::phase::Phase;
use crate::progress::Progress;
use nm_wire::Export;
use std::alloc::{AllocError, Global};

/// Answers a piece where it lies, and holds what waits for more.
fn read_piece(
    alloc: Global,
    held: &mut Vec<u8>,
    out: &mut Vec<u8>,
    export: &Export,
    phase: Phase,
    piece: &[u8],
) -> Result<Progress, AllocError>
    requires { phase ≢ Phase.Over }
    ensures ok { IfOk result (λ p. Appends out.old.items out.new.items
        (λ replies. Reads (state export.now phase []) piece.now replies p held.new.items)) }
    ensures err { OnErr result (BeginsWith out.new.items out.old.items) }
    ensures held_stays { OnErr result (held.new.items ≡ held.old.items) }
{
    let read = answer_text(out, export, phase, piece)?;
    match read.next {
        Next::More => {
            *held = Vec::from_slice(alloc, &piece[read.used..])?;
            Ok(Progress {
                used: piece.len(),
                next: Next::More,
                phase: read.phase,
            })
        }
        Next::Transmit | Next::Close { .. } => {
            *held = Vec::new(alloc);
            Ok(read)
        }
    }
}

/// Appends as much of a piece to what is held as one option may need, and answers that.
fn join(
    held: &mut Vec<u8>,
    out: &mut Vec<u8>,
    export: &Export,
    phase: Phase,
    piece: &[u8],
) -> Result<Progress, AllocError>
    requires open { phase ≢ Phase.Over }
    requires room { length held.old.items ≤ MOST_HELD }
    ensures joined { OnOk result (held.new.items
        ≡ held.old.items ++ take (MOST_HELD - length held.old.items) piece.now) }
    ensures ok { IfOk result (λ p. Appends out.old.items out.new.items
        (λ replies. Advances export.now phase held.new.items replies p)) }
    ensures err { OnErr result (BeginsWith out.new.items out.old.items) }
    ensures held_stays { OnErr result (held.new.items ≡ held.old.items) }
{
    let known = held.len();
    let count = piece.len().min(MOST_HELD - known);
    held.extend_from_slice(&piece[..count])?;
    match answer_text(out, export, phase, held.as_slice()) {
        Ok(progress) => Ok(progress),
        Err(refused) => {
            held.truncate(known);
            Err(refused)
        }
    }
}

/// Answers a piece after what is held, and holds what waits for more.
pub(crate) fn take_in(
    alloc: Global,
    held: &mut Vec<u8>,
    out: &mut Vec<u8>,
    export: &Export,
    phase: Phase,
    piece: &[u8],
) -> Result<Progress, AllocError>
    requires open { phase ≢ Phase.Over }
    requires awaited { IsAwaited phase held.old.items }
    ensures ok { IfOk result (λ p. Appends out.old.items out.new.items
        (λ replies. Reads (state export.now phase held.old.items) piece.now replies p
        held.new.items)) }
    ensures err { OnErr result (BeginsWith out.new.items out.old.items) }
    ensures held_stays { OnErr result (held.new.items ≡ held.old.items) }
{
    if held.is_empty() {
        return read_piece(alloc, held, out, export, phase, piece);
    }
    let before = held.len();
    let first = join(held, out, export, phase, piece)?;
    match first.next {
        Next::More if first.used == 0 => Ok(Progress {
            used: piece.len(),
            next: first.next,
            phase: first.phase,
        }),
        Next::More => {
            let start = first.used - before;
            match read_piece(alloc, held, out, export, first.phase, &piece[start..]) {
                Ok(second) => Ok(Progress {
                    used: start + second.used,
                    next: second.next,
                    phase: second.phase,
                }),
                Err(refused) => {
                    held.truncate(before);
                    Err(refused)
                }
            }
        }
        Next::Transmit | Next::Close { .. } => {
            *held = Vec::new(alloc);
            Ok(Progress {
                used: first.used - before,
                next: first.next,
                phase: first.phase,
            })
        }
    }
}
