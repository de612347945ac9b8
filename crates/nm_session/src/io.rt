//! A session's bytes: from its reader to its core, and from its core to its writer.
ghost use Rattle.std.specs.Prelude.{◌≡◌, ◌<◌, ◌++◌, ℕ, length, take, IfOk, IfErr, OnOk};
ghost use Rattle.nm_replies.specs.Sending.{Sends, device_of};
ghost use Rattle.nm_session.specs.Io.{FeedsPiece, FeedsNone, SendsOut, SendsPart};

use crate::serve_fault::ServeFault;
use crate::session_core::SessionCore;
use nm_replies::{ReplyWriter, SendFault};
use std::alloc::Global;
use std::io::{Read, Write};

/// Reads a piece into the room and feeds it to the core. False where the input has ended.
pub fn feed_piece<I: Read>(
    alloc: Global,
    core: &mut SessionCore,
    room: &mut [u8],
    reader: &mut I,
) -> Result<bool, ServeFault>
    requires { 0 < length room.old }
    ensures ok { IfOk result (λ more. FeedsPiece more core.old core.new
        (I.remaining reader.old) (I.remaining reader.new)) }
    ensures err { IfErr result (λ fault. FeedsNone fault core.old core.new
        (I.remaining reader.old) (I.remaining reader.new)) }
{
    let Ok(count) = reader.read(room) else {
        return Err(ServeFault::Read);
    };
    if count == 0 {
        return Ok(false);
    }
    let Ok(()) = core.feed(alloc, &room[..count]) else {
        return Err(ServeFault::Memory);
    };
    Ok(true)
}

/// Sends what is to go out, all of it: the replies that gathered, and then that to a long READ. Its
/// buffer may be used again after that.
pub fn send_out<O: Write>(
    core: &mut SessionCore,
    sender: &mut ReplyWriter<O>,
) -> Result<(), ServeFault>
    ensures ok { OnOk result (SendsOut core.old core.new
        (O.contents (device_of sender.old)) (O.contents (device_of sender.new))) }
    ensures err { IfErr result (λ fault. SendsPart fault core.old core.new
        (O.contents (device_of sender.old)) (O.contents (device_of sender.new))) }
{
    let (gathered, long) = core.take_out();
    if gathered.len() + long.len() == 0 {
        return Ok(());
    }
    match send_both(sender, gathered.as_slice(), long.as_slice()) {
        Ok(()) => {
            core.keep_buffer(long);
            Ok(())
        }
        Err(SendFault::Device(sent)) => Err(ServeFault::Write(sent)),
        Err(SendFault::Failed) => Err(ServeFault::Write(0)),
    }
}

// Sends all the bytes of the first chunk, and then those of the second.
fn send_both<O: Write>(
    sender: &mut ReplyWriter<O>,
    first: &[u8],
    second: &[u8],
) -> Result<(), SendFault>
    ensures ok { OnOk result
        (Sends O.contents sender.old sender.new (first.now ++ second.now)) }
    ensures device { (sent : ℕ) → result ≡ Err (SendFault.Device sent)
        → (sent < length (first.now ++ second.now))
        × Sends O.contents sender.old sender.new (take sent (first.now ++ second.now)) }
    ensures unchanged { result ≡ Err SendFault.Failed → sender.new ≡ sender.old }
{
    sender.send(first)?;
    match sender.send(second) {
        Err(SendFault::Device(sent)) => Err(SendFault::Device(first.len() + sent)),
        result => result,
    }
}
