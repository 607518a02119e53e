//! Requests, and why none was read.

use crate::replies::Bytes;
use http::Method;
use udb_base::Chars;

/// A request. `path` is the target of its head as it stands (RFC 9112, section 3.2), `body` as long
/// as its `Content-Length` says. `close` says that the session ends after its reply: the head is
/// HTTP/1.0's or has a field `Connection: close`.
#[derive(Drop)]
pub struct Request {
    pub method: Method,
    pub path: Chars,
    pub body: Bytes,
    pub close: bool,
}

/// Why no request was read. `Link` is a failure of the link, `Cut` a session that ended inside a
/// request; the last four refuse a head, with status 400, 411, 413 and 431.
#[derive(Clone, Copy, PartialEq, Eq)]
pub enum ReadFault {
    Memory,
    Link,
    Cut,
    BadHead,
    NoLength,
    TooLong,
    HeadTooLong,
}
