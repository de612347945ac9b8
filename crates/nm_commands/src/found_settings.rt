//! The settings that were found in the words, by subject.
ghost use Rattle.std.specs.Prelude.{◌≡◌, ◌<◌, IfErr, IfOk, IfSome, None, Some, codes, length, map};
ghost use Rattle.std.specs.Prelude.{option_map};
ghost use Rattle.clap.specs.Words.{first_value, found_of, kind_of, matched_of, one_text};
ghost use Rattle.clap.specs.Words.{raw_values, rows_of};
ghost use Rattle.clap.specs.declared.error.kind.ErrorKind.TheVariants.{OutOfMemory};
ghost use Rattle.nm_commands.specs.Settings.{HasClients, HasCopies, HasListening, HasMirror};
ghost use Rattle.nm_commands.specs.Settings.{HasOpening, HasSettings, IsNumber, policy_text};
ghost use Rattle.nm_commands.specs.Settings.{start_text};

use crate::client_options::idle_limit;
use crate::client_settings::ClientSettings;
use crate::copy_settings::CopySettings;
use crate::listen_settings::ListenSettings;
use crate::mirror_settings::MirrorSettings;
use crate::opening_settings::OpeningSettings;
use crate::server_settings::Settings;
use crate::start::Start;
use crate::superblock_options::{named_legs, place_from, superblock_place};
use crate::values::{bare_number, is_named, number, text, wide_number};
use clap::{ArgMatches, Error};
use nm_choice::Policy;
use std::alloc::{AllocError, Global};

// The port of 127.0.0.1 for clients, if one is named.
fn port(matches: &ArgMatches<'_>) -> Result<Option<u16>, Error>
    ensures some { IfOk result (λ port. IfSome port (λ number.
        IsNumber (one_text (found_of matches.now) (codes "port")) number)) }
    ensures none { IfOk result (λ port. port ≡ None
        → first_value (found_of matches.now) (codes "port") ≡ None) }
    ensures memory { IfErr result (λ error. kind_of error ≡ OutOfMemory) }
{
    match matches.get_str("port") {
        None => return Ok(None),
        Some(_) => match matches.get_one::<u16>("port") {
            Some(port) => Ok(Some(port)),
            None => Err(Error::from(AllocError)),
        },
    }
}

// At how many MiB a second legs are copied, if that is named.
fn copy_rate(matches: &ArgMatches<'_>) -> Result<Option<u16>, Error>
    ensures some { IfOk result (λ rate. IfSome rate (λ mib.
        IsNumber (one_text (found_of matches.now) (codes "copy-rate")) mib)) }
    ensures none { IfOk result (λ rate. rate ≡ None
        → first_value (found_of matches.now) (codes "copy-rate") ≡ None) }
    ensures memory { IfErr result (λ error. kind_of error ≡ OutOfMemory) }
{
    match matches.get_str("copy-rate") {
        None => return Ok(None),
        Some(_) => match matches.get_one::<u16>("copy-rate") {
            Some(mib) => Ok(Some(mib)),
            None => Err(Error::from(AllocError)),
        },
    }
}

// After how many seconds a call of a leg is left, if it is.
fn leg_timeout(matches: &ArgMatches<'_>) -> Result<Option<u32>, Error>
    ensures some { IfOk result (λ timeout. IfSome timeout (λ seconds.
        IsNumber (one_text (found_of matches.now) (codes "leg-timeout")) seconds)) }
    ensures none { IfOk result (λ timeout. timeout ≡ None
        → first_value (found_of matches.now) (codes "leg-timeout") ≡ None) }
    ensures memory { IfErr result (λ error. kind_of error ≡ OutOfMemory) }
{
    match matches.get_str("leg-timeout") {
        None => return Ok(None),
        Some(_) => match matches.get_one::<u32>("leg-timeout") {
            Some(seconds) => Ok(Some(seconds)),
            None => Err(Error::from(AllocError)),
        },
    }
}

// The policy.
fn policy(matches: &ArgMatches<'_>) -> Result<Policy, Error>
    ensures ok { IfOk result (λ policy. first_value (found_of matches.now) (codes "policy")
        ≡ Some (policy_text policy)) }
    ensures memory { IfErr result (λ error. kind_of error ≡ OutOfMemory) }
{
    match text(matches, "policy")? {
        "round-robin" => Ok(Policy::RoundRobin),
        "striped" => Ok(Policy::Striped),
        _ => Err(Error::from(AllocError)),
    }
}

// How the mirror starts.
fn start_of(matches: &ArgMatches<'_>) -> Result<Start, Error>
    ensures ok { IfOk result (λ start. first_value (found_of matches.now) (codes "start")
        ≡ Some (start_text start)) }
    ensures memory { IfErr result (λ error. kind_of error ≡ OutOfMemory) }
{
    match text(matches, "start")? {
        "compare" => Ok(Start::Compare),
        "full" => Ok(Start::Full),
        "equal" => Ok(Start::Equal),
        _ => Err(Error::from(AllocError)),
    }
}

// The legs' names, of which there is one at least.
fn legs_of<'a>(alloc: Global, matches: &ArgMatches<'a>) -> Result<Vec<&'a str>, Error>
    ensures ok { IfOk result (λ legs. Some (map (λ leg. leg.now) legs.items)
        ≡ option_map raw_values (matched_of (found_of matches.now) (codes "leg"))) }
    ensures some_leg { IfOk result (λ legs. 0 < length legs.items) }
    ensures memory { IfErr result (λ error. kind_of error ≡ OutOfMemory) }
{
    let Some(names) = matches.get_strs("leg") else {
        return Err(Error::from(AllocError));
    };
    if names.is_empty() {
        return Err(Error::from(AllocError));
    }
    let mut legs = Vec::new(alloc);
    legs.extend_from_slice(names)?;
    Ok(legs)
}

// Where clients and control connect.
fn listening_of<'a>(matches: &ArgMatches<'a>) -> Result<ListenSettings<'a>, Error>
    ensures ok { IfOk result (HasListening (rows_of (found_of matches.now))) }
    ensures memory { IfErr result (λ error. kind_of error ≡ OutOfMemory) }
{
    let address = text(matches, "listen")?;
    let port = port(matches)?;
    let control = text(matches, "control")?;
    Ok(ListenSettings {
        address,
        port,
        control,
    })
}

// What mirror it is, of one leg at least.
fn mirror_of<'a>(alloc: Global, matches: &ArgMatches<'a>) -> Result<MirrorSettings<'a>, Error>
    ensures ok { IfOk result (HasMirror (rows_of (found_of matches.now))) }
    ensures some_leg { IfOk result (λ mirror. 0 < length mirror.legs.items) }
    ensures memory { IfErr result (λ error. kind_of error ≡ OutOfMemory) }
{
    let stripes = number(matches, "stripes")?;
    let policy = policy(matches)?;
    let history = wide_number(matches, "history")?;
    let legs = legs_of(alloc, matches)?;
    Ok(MirrorSettings {
        legs,
        force_in_use: matches.get_flag("force-in-use"),
        stripes,
        names_stripes: is_named(matches, "stripes"),
        policy,
        history,
    })
}

// How the mirror is opened, and by which superblocks.
fn opening_of<'a>(alloc: Global, matches: &ArgMatches<'a>) -> Result<OpeningSettings<'a>, Error>
    ensures ok { IfOk result (HasOpening (rows_of (found_of matches.now))) }
    ensures memory { IfErr result (λ error. kind_of error ≡ OutOfMemory) }
{
    let master = bare_number(matches, "master")?;
    let start = start_of(matches)?;
    let superblock = superblock_place(matches)?;
    let superblock_from = place_from(matches);
    let force_master = bare_number(matches, "force-master")?;
    let added = named_legs(alloc, matches, "add-leg")?;
    let moved = named_legs(alloc, matches, "moved")?;
    Ok(OpeningSettings {
        master,
        start,
        superblock,
        names_superblock: is_named(matches, "superblock"),
        superblock_from,
        degraded: matches.get_flag("degraded"),
        force_master,
        added,
        moved,
        shrink: matches.get_flag("shrink"),
    })
}

// How legs are copied, and when one is out.
fn copies_of(matches: &ArgMatches<'_>) -> Result<CopySettings, Error>
    ensures ok { IfOk result (HasCopies (rows_of (found_of matches.now))) }
    ensures memory { IfErr result (λ error. kind_of error ≡ OutOfMemory) }
{
    let copy_rate = copy_rate(matches)?;
    let leg_timeout = leg_timeout(matches)?;
    Ok(CopySettings {
        auto_attach: matches.get_flag("auto-attach"),
        copy_rate,
        leg_timeout,
    })
}

// What clients are served.
fn clients_of<'a>(matches: &ArgMatches<'a>) -> Result<ClientSettings<'a>, Error>
    ensures ok { IfOk result (HasClients (rows_of (found_of matches.now))) }
    ensures memory { IfErr result (λ error. kind_of error ≡ OutOfMemory) }
{
    let export = text(matches, "name")?;
    let sessions = number(matches, "sessions")?;
    let idle_limit = idle_limit(matches)?;
    Ok(ClientSettings {
        export,
        read_only: matches.get_flag("read-only"),
        sessions,
        idle_limit,
        verbose: matches.get_flag("verbose"),
    })
}

/// The settings that were found, of all subjects.
pub fn settings_of<'a>(alloc: Global, matches: &ArgMatches<'a>) -> Result<Settings<'a>, Error>
    ensures ok { IfOk result (HasSettings (rows_of (found_of matches.now))) }
    ensures some_leg { IfOk result (λ settings. 0 < length settings.mirror.legs.items) }
    ensures memory { IfErr result (λ error. kind_of error ≡ OutOfMemory) }
{
    let listening = listening_of(matches)?;
    let mirror = mirror_of(alloc, matches)?;
    let opening = opening_of(alloc, matches)?;
    let copies = copies_of(matches)?;
    let clients = clients_of(matches)?;
    Ok(Settings {
        listening,
        mirror,
        opening,
        copies,
        clients,
    })
}
