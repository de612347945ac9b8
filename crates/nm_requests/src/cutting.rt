ghost use Rattle.std.specs.Prelude.{◌≡◌, ℕ, List, [], ◌+◌, ◌<◌, ◌≤◌, ◌++◌, length, take, drop};
ghost use Rattle.std.specs.Prelude.{None};
ghost use Rattle.std.specs.Prelude.{Some, IfSome, IfNone, IfOk, IfErr, OnErr, IsOk};
ghost use Rattle.nm_wire.specs.Sizes.{max_payload};
ghost use Rattle.nm_requests.specs.Message.{Message, payload_length, read_length};
ghost use Rattle.nm_requests.specs.Stream.{StartsWith, EndsAs, most_requests};
ghost use Rattle.nm_requests.specs.First.{HasWhole, HasPayload, BeginsRead, message_of};

use crate::fault::Fault;
use crate::received::Received;
use crate::request::Request;
use nm_wire::sizes::MAX_PAYLOAD;
use nm_wire::{Command, RequestHead, WireFault};

const MAX_REQUESTS: u64 = 0x8000_0000_0000_0000;

// Cuts the first request out of the buffer, if all of it is there. It gets this index.
pub(crate) fn cut_first(buffer: &mut Received, index: u64) -> Result<Option<Request>, Fault>
    requires { index ≤ most_requests }
    ensures request { IfOk result (λ found. IfSome found (λ request.
        StartsWith index buffer.old.items (message_of request) buffer.new.items)) }
    ensures index { IfOk result (λ found. IfSome found (λ request. request.index ≡ index)) }
    ensures none { IfOk result (λ found. IfNone found
        (EndsAs index buffer.old.items None × (buffer.new ≡ buffer.old))) }
    ensures magic { result ≡ Err Fault.Magic → EndsAs index buffer.old.items (Some Fault.Magic) }
    ensures too_long { result ≡ Err Fault.TooLong
        → EndsAs index buffer.old.items (Some Fault.TooLong) }
    ensures memory { result ≡ Err Fault.Memory → HasPayload index buffer.old.items }
    ensures err { OnErr result (buffer.new ≡ buffer.old) }
{
    let Some(head) = whole_head(buffer, index)? else {
        return Ok(None);
    };
    let payload = buffer.cut_payload(payload_len(&head))?;
    Ok(Some(Request {
        index,
        kind: head.kind,
        flags: head.flags,
        cookie: head.cookie,
        offset: head.offset,
        length: head.length,
        payload,
    }))
}

// The header of the first request, if all of the request is there.
pub(crate) fn whole_head(buffer: &Received, index: u64) -> Result<Option<RequestHead>, Fault>
    requires { index ≤ most_requests }
    ensures whole { IfOk result (λ found. IfSome found (HasWhole index buffer.now.items)) }
    ensures none { IfOk result (λ found. IfNone found (EndsAs index buffer.now.items None)) }
    ensures fault { IfErr result (λ fault. EndsAs index buffer.now.items (Some fault)) }
{
    let head = match buffer.first_head() {
        Err(WireFault::Short) => return Ok(None),
        Ok(head) if index < MAX_REQUESTS => head,
        _ => return Err(Fault::Magic),
    };
    let length = payload_len(&head);
    if length > MAX_PAYLOAD {
        return Err(Fault::TooLong);
    }
    if buffer.len() - RequestHead::BYTES < length as usize {
        return Ok(None);
    }
    Ok(Some(head))
}

// How many bytes of the first request have not come, where its header is there.
pub(crate) fn missing_len(buffer: &Received) -> usize
    ensures capped { result ≤ 28 + max_payload }
    ensures missing { (message : Message) (more : List ℕ) → 28 ≤ length buffer.now.items
        → StartsWith 0 (buffer.now.items ++ more) message [] → result ≡ length more }
{
    let Ok(head) = buffer.first_head() else {
        return 0;
    };
    let length = payload_len(&head);
    if length > MAX_PAYLOAD {
        return 0;
    }
    (RequestHead::BYTES + length as usize).saturating_sub(buffer.len())
}

// How many bytes the first request asks to read, where it is a READ whose header is there.
pub(crate) fn first_read_len(buffer: &Received) -> u32
    ensures first { (before : ℕ) (message : Message) (after : List ℕ)
        → StartsWith before buffer.now.items message after → result ≡ read_length message.head }
    ensures begins { 0 < result → BeginsRead buffer.now.items result }
{
    let Ok(head) = buffer.first_head() else {
        return 0;
    };
    read_len(&head)
}

// How many bytes the header asks to read.
fn read_len(head: &RequestHead) -> u32
    ensures { result ≡ read_length head.now }
{
    if head.kind == Command::Read.number() {
        head.length
    } else {
        0
    }
}

// How many bytes follow the header.
fn payload_len(head: &RequestHead) -> u32
    ensures { result ≡ payload_length head.now }
{
    if head.kind == Command::Write.number() {
        head.length
    } else {
        0
    }
}
