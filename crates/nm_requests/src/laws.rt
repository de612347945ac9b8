//! Laws of the definitions: what the contracts of single calls say, they say of whole streams.
ghost use Rattle.std.specs.Prelude.{◌≡◌, ◌<◌, ◌++◌, ◌⊎◌, ℕ, Bool, slice_index, List, length};
ghost use Rattle.std.specs.Prelude.{Option, Some, Result};
ghost use Rattle.nm_wire.specs.declared.export.Export.{Export};
ghost use Rattle.nm_requests.specs.declared.fault.Fault.{Fault};
ghost use Rattle.nm_requests.specs.declared.request.Request.{Request};
ghost use Rattle.nm_requests.specs.declared.task.Task.{Task};
ghost use Rattle.nm_requests.specs.declared.task.Task.TheVariants.{Write};
ghost use Rattle.nm_requests.specs.First.{message_of};
ghost use Rattle.nm_requests.specs.Judging.{IsFirst, LiesInside, table};
ghost use Rattle.nm_requests.specs.Message.{Message, IsMessage, message_bytes};
ghost use Rattle.nm_requests.specs.Reader.{Unread, Call, Stopped, Reserved, IsNew, Stops, Step};
ghost use Rattle.nm_requests.specs.Reader.{Runs, bytes_fed, requests_out};
ghost use Rattle.nm_requests.specs.Stream.{StartsWith, Begins, EndsAs, IsStream, IsStreamAfter};

/// No request begins another: bytes that begin with a request begin with no other.
pub fn no_request_begins_another()
    ensures { (a b : Message) (x y : List ℕ) → IsMessage a → IsMessage b
        → message_bytes a ++ x ≡ message_bytes b ++ y → (a ≡ b) × (x ≡ y) }
{}

/// A request, a wrong magic number, a WRITE that is too long, or no whole request: bytes begin with
/// at most one of these.
pub fn one_beginning()
    ensures request { (before : ℕ) (bytes after : List ℕ) (message : Message) (end : Option Fault)
        → StartsWith before bytes message after → EndsAs before bytes end → ⊥ }
    ensures end { (before : ℕ) (bytes : List ℕ) (end other : Option Fault)
        → EndsAs before bytes end → EndsAs before bytes other → end ≡ other }
{}

/// Any bytes are a text of some requests and some end, and of no others.
pub fn one_stream()
    ensures some { (text : List ℕ) → ((i : ℕ) → slice_index text i < 256)
        → (messages : List Message) × (end : Option Fault) × IsStream text messages end }
    ensures only { (text : List ℕ) (messages others : List Message) (end other : Option Fault)
        → IsStream text messages end → IsStream text others other
        → (messages ≡ others) × (end ≡ other) }
{}

/// More bytes add requests after those that are there, and none after a fault.
pub fn stream_goes_on()
    ensures later { (text more : List ℕ) (messages others : List Message) (end other : Option Fault)
        → IsStream text messages end → IsStream (text ++ more) others other
        → (later : List Message) × (others ≡ messages ++ later) }
    ensures stopped { (text more : List ℕ) (messages : List Message) (fault : Fault)
        → IsStream text messages (Some fault) → IsStream (text ++ more) messages (Some fault) }
{}

/// However a stream was cut into pieces and whatever calls of a new reader were made: what was
/// handed out is the beginning of what was fed, and the reader's state says how that goes on.
pub fn requests_so_far()
    ensures begins { (reader new : Unread) (calls : List Call) → IsNew reader
        → Runs reader calls new → Begins 0 (bytes_fed calls) (requests_out calls) new.rest }
    ensures count { (reader new : Unread) (calls : List Call) → IsNew reader
        → Runs reader calls new → new.count ≡ length (requests_out calls) }
    ensures first { (reader new : Unread) (calls : List Call) (messages : List Message)
        (end : Option Fault) → IsNew reader → Runs reader calls new
        → IsStream (bytes_fed calls) messages end
        → (later : List Message) × (messages ≡ requests_out calls ++ later)
        × IsStreamAfter new.count new.rest later end }
    ensures all { (reader new : Unread) (calls : List Call) (end : Option Fault) → IsNew reader
        → Runs reader calls new → EndsAs new.count new.rest end
        → IsStream (bytes_fed calls) (requests_out calls) end }
{}

/// After a fault a reader answers nothing else, but still makes room.
pub fn stays_stopped()
    ensures { (old mid new : Unread) (fault : Fault) (call : Call) → Stops old fault mid
        → Step mid call new → (call ≡ Stopped fault) ⊎ (call ≡ Reserved) }
{}

/// Each request has exactly one result by the table, over each export.
pub fn one_result()
    ensures { (request : Request) (export : Export) → (result : Result Task ℕ)
        × IsFirst (table request export) result
        × ((other : Result Task ℕ) → IsFirst (table request export) other → other ≡ result) }
{}

/// A WRITE that is judged a task has a payload as long as the bytes that it writes.
pub fn payload_fills_the_bytes()
    ensures { (before : ℕ) (bytes after : List ℕ) (request : Request) (export : Export)
        (offset count : ℕ) (fua : Bool) → StartsWith before bytes (message_of request) after
        → LiesInside request export (Write offset count fua)
        → length request.payload ≡ count }
{}
