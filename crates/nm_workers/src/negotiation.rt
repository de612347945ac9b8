//! A session's first part: the haggling over its export, before any thread is started.
ghost use Rattle.std.specs.Prelude.{◌≡◌, ◌<◌, [], length, None, IfOk, IfErr};
ghost use Rattle.nm_replies.specs.Sending.{device_of};
ghost use Rattle.nm_workers.specs.Results.{no_note};
ghost use Rattle.nm_workers.specs.Serving.{io, left, Negotiates, Breaks};

use nm_replies::ReplyWriter;
use nm_session::{End, Phase, ServeFault, Served, SessionCore, feed_piece, send_out};
use std::alloc::Global;
use std::io::{Read, Write};
use std::sync::Wait;

/// Haggles over the export, from the greeting until transmission begins, where it answers `None`,
/// or the session ends, and sends all that is to go out.
pub fn negotiate<R: Wait, I: Read, O: Write>(
    rt: &R,
    alloc: Global,
    core: &mut SessionCore,
    room: &mut [u8],
    reader: &mut I,
    sender: &mut ReplyWriter<O>,
) -> Result<Option<Served>, ServeFault>
    requires idle { core.old.outstanding ≡ [] }
    requires room { 0 < length room.old }
    ensures ok { IfOk result (λ served. Negotiates served core.old core.new
        (io (I.remaining reader.old) (O.contents (device_of sender.old)) tt)
        (io (I.remaining reader.new) (O.contents (device_of sender.new)) tt)) }
    ensures export { IfOk result (λ served. served ≡ None
        → core.new.haggling.export ≡ core.old.haggling.export) }
    ensures err { IfErr result (λ fault. Breaks no_note fault core.old
        (io (I.remaining reader.old) (O.contents (device_of sender.old)) tt)
        (left (O.contents (device_of sender.new)) tt)) }
{
    'pieces: for _ in rt.forever() {
        if let Err(fault) = send_out(core, sender) {
            return Err(fault);
        }
        match core.phase() {
            Phase::Haggling => match feed_piece(alloc, core, room, reader) {
                Ok(true) => (),
                Ok(false) => return Ok(Some(core.report(End::EndOfInput))),
                Err(fault) => return Err(fault),
            },
            Phase::Serving => return Ok(None),
            _ => return Ok(Some(core.report(core.end()))),
        }
    }
    unreachable!()
}
