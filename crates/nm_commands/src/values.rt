//! The values of options that any of them may have.
ghost use Rattle.std.specs.Prelude.{◌≡◌, ◌↔◌, None, Some, IfErr, IfOk, IfSome, IsTrue};
ghost use Rattle.clap.specs.Words.{first_value, found_of, kind_of, one_text, rows_of};
ghost use Rattle.clap.specs.declared.error.kind.ErrorKind.TheVariants.{OutOfMemory};
ghost use Rattle.nm_commands.specs.Settings.{IsNamed, IsNumber};

use clap::parser::ValueSource;
use clap::{ArgMatches, Error};
use std::alloc::AllocError;

/// The text of an option.
pub fn text<'a>(matches: &ArgMatches<'a>, id: &str) -> Result<&'a str, Error>
    ensures ok { IfOk result (λ text. first_value (found_of matches.now) id.now ≡ Some text.now) }
    ensures memory { IfErr result (λ error. kind_of error ≡ OutOfMemory) }
{
    match matches.get_str(id) {
        Some(text) => Ok(text),
        None => Err(Error::from(AllocError)),
    }
}

/// The number of an option.
pub fn number(matches: &ArgMatches<'_>, id: &str) -> Result<u8, Error>
    ensures ok { IfOk result (λ number. IsNumber (one_text (found_of matches.now) id.now) number) }
    ensures memory { IfErr result (λ error. kind_of error ≡ OutOfMemory) }
{
    match matches.get_one::<u8>(id) {
        Some(number) => Ok(number),
        None => Err(Error::from(AllocError)),
    }
}

/// The number of an option that is above 255 for some.
pub fn wide_number(matches: &ArgMatches<'_>, id: &str) -> Result<u16, Error>
    ensures ok { IfOk result (λ number. IsNumber (one_text (found_of matches.now) id.now) number) }
    ensures memory { IfErr result (λ error. kind_of error ≡ OutOfMemory) }
{
    match matches.get_one::<u16>(id) {
        Some(number) => Ok(number),
        None => Err(Error::from(AllocError)),
    }
}

/// The number of an option that has no default, if the words have it.
pub fn bare_number(matches: &ArgMatches<'_>, id: &str) -> Result<Option<u8>, Error>
    ensures some { IfOk result (λ found. IfSome found (λ number.
        IsNumber (one_text (found_of matches.now) id.now) number)) }
    ensures none { IfOk result (λ found. found ≡ None
        → first_value (found_of matches.now) id.now ≡ None) }
    ensures memory { IfErr result (λ error. kind_of error ≡ OutOfMemory) }
{
    match matches.get_str(id) {
        None => Ok(None),
        Some(_) => Ok(Some(number(matches, id)?)),
    }
}

/// Whether the words themselves have this option.
pub fn is_named(matches: &ArgMatches<'_>, id: &str) -> bool
    ensures { IsTrue result ↔ IsNamed id.now (rows_of (found_of matches.now)) }
{
    matches.value_source(id) == Some(ValueSource::CommandLine)
}
