//! The refusals that the service makes of a request, with their statuses and bodies.

ghost use Rattle.std.specs.Prelude.{◌≡◌};
ghost use Rattle.serde_json.specs.Written.{compact_text};
ghost use Rattle.udb_http.specs.Refusals.{status_of, message_of, refusal_of, error_data, done_data};

use crate::requests::ReadFault;

/// A refusal whose body is a message alone. `KeeperFailed` is a failure of the service, and
/// `OutOfMemory` want of memory.
#[derive(Clone, Copy, PartialEq, Eq)]
pub enum Refusal {
    HeadTooLong,
    BadRequest,
    LengthRequired,
    TooLong,
    NotFound,
    MethodNotAllowed,
    KeeperFailed,
    OutOfMemory,
}

/// The refusal that answers a fault of `read_request`; none where the session ends without a reply.
pub fn refusal_of(fault: ReadFault) -> Option<Refusal>
    ensures { result ≡ refusal_of fault }
{
    match fault {
        ReadFault::Memory => Some(Refusal::OutOfMemory),
        ReadFault::Link | ReadFault::Cut => None,
        ReadFault::BadHead => Some(Refusal::BadRequest),
        ReadFault::NoLength => Some(Refusal::LengthRequired),
        ReadFault::TooLong => Some(Refusal::TooLong),
        ReadFault::HeadTooLong => Some(Refusal::HeadTooLong),
    }
}

/// The status of a refusal (RFC 9110, section 15; 431 is RFC 6585's).
pub fn refusal_status(refusal: Refusal) -> u16
    ensures { result ≡ status_of refusal }
{
    match refusal {
        Refusal::HeadTooLong => 431,
        Refusal::BadRequest => 400,
        Refusal::LengthRequired => 411,
        Refusal::TooLong => 413,
        Refusal::NotFound => 404,
        Refusal::MethodNotAllowed => 405,
        Refusal::KeeperFailed => 500,
        Refusal::OutOfMemory => 503,
    }
}

/// The body of a refusal: the compact text of a JSON object with the message.
pub fn refusal_text(refusal: Refusal) -> &'static str
    ensures { result.now ≡ compact_text (error_data (message_of refusal)) }
{
    match refusal {
        Refusal::HeadTooLong => r#"{"error":"head too long"}"#,
        Refusal::BadRequest => r#"{"error":"bad request"}"#,
        Refusal::LengthRequired => r#"{"error":"length required"}"#,
        Refusal::TooLong => r#"{"error":"too long"}"#,
        Refusal::NotFound => r#"{"error":"not found"}"#,
        Refusal::MethodNotAllowed => r#"{"error":"method not allowed"}"#,
        Refusal::KeeperFailed => r#"{"error":"keeper failed"}"#,
        Refusal::OutOfMemory => r#"{"error":"out of memory"}"#,
    }
}

/// The body of the reply to an edit that was done.
pub fn done_text() -> &'static str
    ensures { result.now ≡ compact_text done_data }
{
    r#"{"done":true}"#
}
