//! What the options say of clients.
ghost use Rattle.std.specs.Prelude.{◌≡◌, codes, None, IfErr, IfOk, IfSome};
ghost use Rattle.clap.specs.Words.{first_value, found_of, kind_of, one_text};
ghost use Rattle.clap.specs.declared.error.kind.ErrorKind.TheVariants.{OutOfMemory};
ghost use Rattle.nm_commands.specs.Settings.{IsNumber};

use clap::{ArgMatches, Error};
use std::alloc::{AllocError, Global};

/// After how many seconds an idle client is closed, if it is.
pub fn idle_limit(matches: &ArgMatches<'_>) -> Result<Option<u32>, Error>
    ensures some { IfOk result (λ limit. IfSome limit (λ seconds.
        IsNumber (one_text (found_of matches.now) (codes "idle-limit")) seconds)) }
    ensures none { IfOk result (λ limit. limit ≡ None
        → first_value (found_of matches.now) (codes "idle-limit") ≡ None) }
    ensures memory { IfErr result (λ error. kind_of error ≡ OutOfMemory) }
{
    match matches.get_str("idle-limit") {
        None => return Ok(None),
        Some(_) => match matches.get_one::<u32>("idle-limit") {
            Some(seconds) => Ok(Some(seconds)),
            None => Err(Error::from(AllocError)),
        },
    }
}
