ghost use Rattle.std.specs.Prelude.{◌≡◌, ◌≢◌, drop, IfOk};
ghost use Rattle.nm_wire.specs.Command.{command_number};
ghost use Rattle.nm_requests.specs.Judging.{table, IsFirst, LiesInside};
ghost use Rattle.nm_requests.specs.Judging as judging;

use crate::request::Request;
use crate::task::Task;
use nm_wire::errors::{EINVAL, ENOSPC, EPERM};
use nm_wire::sizes::MAX_PAYLOAD;
use nm_wire::{Command, CommandFlags, Export};

// The flags that a request may have.
const SERVED: CommandFlags = CommandFlags(CommandFlags::FUA.0 | CommandFlags::NO_HOLE.0);

/// What the request asks for, or the error number of its reply ("Error values"). Takes no memory.
pub fn judge(request: &Request, export: &Export) -> Result<Task, u32>
    ensures table { IsFirst (table request.now export.now) result }
    ensures inside { IfOk result (LiesInside request.now export.now) }
{
    let Some(command) = Command::from_number(request.kind) else {
        return Err(EINVAL);
    };
    match command {
        Command::Disconnect => Ok(Task::Disconnect),
        _ if !contains(SERVED, request.flags) => Err(EINVAL),
        Command::Flush => Ok(Task::Flush),
        Command::Write | Command::Trim | Command::WriteZeroes if export.read_only => Err(EPERM),
        _ => judge_extent(command, request, export),
    }
}

// Judges where a READ, WRITE, TRIM or WRITE_ZEROES lies, by the rows after the first five.
fn judge_extent(command: Command, request: &Request, export: &Export) -> Result<Task, u32>
    requires kind { request.now.kind ≡ command_number command }
    requires not_disconnect { command ≢ Command.Disconnect }
    requires not_flush { command ≢ Command.Flush }
    ensures table { IsFirst (drop 5 (table request.now export.now)) result }
    ensures inside { IfOk result (LiesInside request.now export.now) }
{
    let size = export.size();
    let length = u64::from(request.length);
    // The sum of offset and length may not fit.
    if length > size || request.offset > size - length {
        return Err(match command {
            Command::Write | Command::WriteZeroes => ENOSPC,
            _ => EINVAL,
        });
    }
    if command == Command::Read && request.length > MAX_PAYLOAD {
        return Err(EINVAL);
    }
    if request.length == 0 {
        return Ok(Task::Nothing);
    }
    let (offset, length) = (request.offset, request.length);
    let fua = contains(request.flags, CommandFlags::FUA);
    Ok(match command {
        Command::Read => Task::Read { offset, length },
        Command::Write => Task::Write {
            offset,
            length,
            fua,
        },
        _ => Task::Zero {
            offset,
            length,
            fua,
        },
    })
}

// Whether each bit of the others is set.
fn contains(flags: CommandFlags, others: CommandFlags) -> bool
    ensures { result ≡ judging.contains flags.0 others.0 }
{
    flags.0 & others.0 == others.0
}
