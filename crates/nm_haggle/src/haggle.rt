ghost use Rattle.std.specs.Prelude.{◌≡◌, ◌↔◌, ◌≤◌, length, IfOk, OnErr, IsErrOf};
ghost use Rattle.nm_haggle.specs.Haggling.{initial_state, greeting_bytes, HagglesFrom, IsOver};
ghost use Rattle.nm_haggle.specs.Output.{Appends};

use crate::phase::Phase;
use crate::piece::take_in;
use crate::refused::Refused;
use crate::step::Step;
use crate::turn::Turn;
use nm_wire::magic::{GREETING_MAGIC, OPTION_MAGIC};
use nm_wire::number::{put_u16, put_u64};
use nm_wire::{Export, ServerFlags};
use std::alloc::Global;
use std::marker::Model;

/// The server's side of the fixed newstyle handshake after its greeting: takes the client's flags
/// and options in pieces as they come, and answers each piece.
#[derive(Drop)]
pub struct Haggle {
    export: Export,
    phase: Phase,
    held: Option<Vec<u8>>,
}

impl Model for Haggle {
    ghost use Rattle.std.specs.Prelude.{[]};
    ghost use Rattle.std.specs.Option.{option_map_or};
    ghost use Rattle.nm_haggle.specs.Haggling.{Haggling, state, IsAwaited};

    ghost Value = { Haggling };

    ghost view = { λ h. state h.export h.phase (option_map_or (λ v. v.items) h.held []) };

    ghost invariant = { λ h. IsAwaited h.phase (option_map_or (λ v. v.items) h.held []) };
}

impl Haggle {
    /// The haggling over an export, before the client's first byte; takes no memory.
    pub fn new(export: Export) -> Haggle
        ensures { result ≡ initial_state export }
    {
        Haggle {
            export,
            phase: Phase::Flags,
            held: None,
        }
    }

    /// The export.
    pub fn export(&self) -> &Export
        ensures { result.now ≡ self.now.export }
    {
        &self.export
    }

    /// The 18 bytes that the server sends first ("Newstyle negotiation").
    pub fn greeting() -> [u8; 18]
        ensures { result ≡ greeting_bytes }
    {
        let flags = ServerFlags::FIXED_NEWSTYLE.0 | ServerFlags::NO_ZEROES.0;
        let mut bytes = [0; 18];
        put_u64(&mut bytes, 0, GREETING_MAGIC);
        put_u64(&mut bytes, 8, OPTION_MAGIC);
        put_u16(&mut bytes, 16, flags);
        bytes
    }

    /// Takes the next piece of what the client sends, and answers each option that is complete now.
    pub fn feed(&mut self, alloc: Global, bytes: &[u8]) -> Result<Turn, Refused>
        // However the client's text is cut, the pieces' answers are those of the whole.
        ensures ok { IfOk result (λ turn. HagglesFrom self.old bytes.now (record {
          out = turn.out.items;
          used = turn.used;
          next = turn.next;
        }) self.new) }
        ensures used { IfOk result (λ turn. turn.used ≤ length bytes.now) }
        ensures closed { IsErrOf result Refused.Closed ↔ IsOver self.old }
        ensures err { OnErr result (self.new ≡ self.old) }
    {
        let mut out = Vec::new(alloc);
        let step = self.feed_into(alloc, &mut out, bytes)?;
        Ok(Turn {
            used: step.used,
            out,
            next: step.next,
        })
    }

    /// Takes the next piece of what the client sends, and appends the reply to each option that is
    /// complete now to `out`. Refused, it changes nothing, of `out` either.
    pub fn feed_into(
        &mut self,
        alloc: Global,
        out: &mut Vec<u8>,
        bytes: &[u8],
    ) -> Result<Step, Refused>
        ensures ok { IfOk result (λ step. Appends out.old.items out.new.items (λ replies.
            HagglesFrom self.old bytes.now (record {
              out = replies;
              used = step.used;
              next = step.next;
            }) self.new)) }
        ensures used { IfOk result (λ step. step.used ≤ length bytes.now) }
        ensures closed { IsErrOf result Refused.Closed ↔ IsOver self.old }
        ensures err { OnErr result (self.new ≡ self.old) }
        ensures out_stays { OnErr result (out.new.items ≡ out.old.items) }
    {
        if let Phase::Over = self.phase {
            return Err(Refused::Closed);
        }
        let mut held = match self.held.take() {
            Some(held) => held,
            None => Vec::new(alloc),
        };
        let before = out.len();
        let answer = take_in(alloc, &mut held, out, &self.export, self.phase, bytes);
        self.held = Some(held);
        match answer {
            Ok(progress) => {
                self.phase = progress.phase;
                Ok(Step {
                    used: progress.used,
                    next: progress.next,
                })
            }
            Err(refused) => {
                out.truncate(before);
                Err(Refused::from(refused))
            }
        }
    }
}
