//! The replies that wait to go out lie in two chunks: those that gather, and behind them that of a
//! long READ, in the buffer that it was read into.
ghost use Rattle.std.specs.Prelude.{◌≡◌, ◌++◌, [], IfErr, OnOk, OnErr};
ghost use Rattle.nm_session.specs.Outcome.{says, reply_frame};

use crate::buffer_pool::LONG_READ;
use crate::dispatch::put_outcome;
use crate::outcome::Outcome;
use std::alloc::AllocError;

// Appends the reply to a request with this outcome. The data of a long READ are not copied, unless
// the reply to another one waits. Refused, what waits stays, and the outcome comes back.
pub(crate) fn queue_outcome(
    gathered: &mut Vec<u8>,
    long: &mut Vec<u8>,
    cookie: u64,
    outcome: Outcome,
) -> Result<(), Outcome>
    ensures ok { OnOk result (gathered.new.items ++ long.new.items
        ≡ (gathered.old.items ++ long.old.items) ++ reply_frame cookie (says outcome)) }
    ensures back { IfErr result (λ e. e ≡ outcome) }
    ensures err { OnErr result
        (gathered.new.items ++ long.new.items ≡ gathered.old.items ++ long.old.items) }
{
    match outcome {
        Outcome::Data(frame) if LONG_READ <= frame.len() && long.is_empty() => {
            *long = frame.into_frame(cookie);
            Ok(())
        }
        outcome => {
            if join(gathered, long).is_err() {
                return Err(outcome);
            }
            put_outcome(gathered, cookie, outcome)
        }
    }
}

// Puts the long reply behind those that gathered, so that others may follow it.
pub(crate) fn join(gathered: &mut Vec<u8>, long: &mut Vec<u8>) -> Result<(), AllocError>
    ensures same { gathered.new.items ++ long.new.items ≡ gathered.old.items ++ long.old.items }
    ensures one { OnOk result (long.new.items ≡ []) }
{
    if long.is_empty() {
        return Ok(());
    }
    gathered.extend_from_slice(long.as_slice())?;
    long.clear();
    Ok(())
}
