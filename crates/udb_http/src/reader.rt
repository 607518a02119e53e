//! The next request of a session.

ghost use Rattle.std.specs.Prelude.{◌≡◌, ◌≤◌, ◌<◌, ◌+◌, ◌++◌, ℕ, List, [], Some, take, drop, length, IfOk, MatchOption, MatchResult};
ghost use Rattle.httparse.specs.Grammar.{RequestHead};
ghost use Rattle.udb_http.specs.Frames.{IsFrameOf, IsFrameWithin};
ghost use Rattle.udb_http.specs.Heads.{head_limit};
ghost use Rattle.udb_http.specs.Sessions.{HasEnd, HasLinkCause, SpellsFault, Stays, request_of, unread, Answers, FoundHead, FoundBody};

use crate::buffer::Buffer;
use crate::heads::{Frame, read_frame};
use crate::replies::Bytes;
use crate::requests::{ReadFault, Request};
use crate::room::Room;
use crate::scans::{Line, Scan, find_end};
use http::Method;
use std::alloc::{AllocError, Global};
use udb_base::{Chars, Link, Many, NoMemory};

/// The most bytes of a head.
pub const HEAD_LIMIT: usize = 16_384;

fn head_limit() -> usize
    ensures { result ≡ head_limit }
{
    HEAD_LIMIT
}

// The first bytes, at most so many.
fn front_of(bytes: &[u8], most: usize) -> &[u8]
    ensures { result.now ≡ take most bytes.now }
{
    if bytes.len() <= most {
        bytes
    } else {
        &bytes[..most]
    }
}

// Reads until the end of a head is there, and tells how many bytes it takes; none where the session
// has ended before.
fn read_head<L: Link>(link: &mut L, buffer: &mut Buffer) -> Result<Option<usize>, ReadFault>
    ensures stays { Stays (unread buffer.old (L.left link.old))
        (unread buffer.new (L.left link.new)) }
    ensures found { FoundHead (unread buffer.old (L.left link.old)) buffer.new result }
    ensures cause { HasLinkCause (L.faults link.old) (L.faults link.new) result }
    ensures later { L.later link.new ≡ L.later link.old }
    ensures sent { L.sent link.new ≡ L.sent link.old }
    ensures nexts { L.next_faults link.new ≡ L.next_faults link.old }
{
    let mut scan = Scan {
        begun: false,
        line: Line::Empty,
        at: 0,
    };
    let limit = head_limit();
    'reads: loop {
        let front = front_of(buffer.bytes(), limit);
        if let Some(end) = find_end(front, &mut scan) {
            return Ok(Some(end));
        }
        let size = front.len();
        if size == limit {
            return Err(ReadFault::HeadTooLong);
        }
        if !buffer.fill(link)? {
            return if size == 0 {
                Ok(None)
            } else {
                Err(ReadFault::Cut)
            };
        }
    }
}

// Reads until so many bytes are there.
fn read_body<L: Link>(link: &mut L, buffer: &mut Buffer, end: usize) -> Result<(), ReadFault>
    ensures stays { Stays (unread buffer.old (L.left link.old))
        (unread buffer.new (L.left link.new)) }
    ensures found { FoundBody (unread buffer.old (L.left link.old)) end buffer.new result }
    ensures cause { HasLinkCause (L.faults link.old) (L.faults link.new) result }
    ensures later { L.later link.new ≡ L.later link.old }
    ensures sent { L.sent link.new ≡ L.sent link.old }
    ensures nexts { L.next_faults link.new ≡ L.next_faults link.old }
{
    'reads: while buffer.bytes().len() < end {
        if !buffer.fill(link)? {
            return Err(ReadFault::Cut);
        }
    }
    Ok(())
}

// The request of a head of so many bytes, with the body that follows.
fn request_from(alloc: Global, bytes: &[u8], end: usize, frame: &Frame) -> Result<Request, NoMemory>
    requires within { IsFrameWithin end frame.now }
    requires whole { end + frame.now.size ≤ length bytes.now }
    ensures { (h : RequestHead) → IsFrameOf (take end bytes.now) frame.now h
        → IfOk result (λ r. r ≡ request_of h (take frame.now.size (drop end bytes.now))) }
{
    let (head, rest) = bytes.split_at(end);
    // The method of a head is a token and its target is text, so that memory alone can be wanting.
    let Ok(path) = std::str::from_utf8(frame.path.of(head)) else {
        return Err(AllocError);
    };
    let path = Chars::of(alloc, path)?;
    let body = Many::from_slice(alloc, &rest[..frame.size])?;
    let Ok(method) = Method::from_bytes(alloc, frame.method.of(head)) else {
        return Err(AllocError);
    };
    Ok(Request {
        method,
        path,
        body,
        close: frame.close,
    })
}

/// The next request of a session, however the link cuts its bytes: first of those that the room
/// holds, then of those that the link reads. Nothing of the next request is taken, though it may be
/// read into the room.
///
/// `None` answers a session that ended before the request's first byte, `Cut` one that ended inside
/// it. `BadHead`, `NoLength`, `TooLong` and `HeadTooLong` refuse the request, and the session is
/// over then. `Link` answers a failure of the link, and `Memory` want of memory; no byte is lost by
/// them.
pub fn read_request<L: Link>(
    alloc: Global,
    link: &mut L,
    room: &mut Room,
) -> Result<Option<Request>, ReadFault>
    ensures answers { (bytes : List ℕ) → unread room.old (L.left link.old) ≡ Some bytes
        → Answers bytes result (unread room.new (L.left link.new)) }
    ensures cause { HasLinkCause (L.faults link.old) (L.faults link.new) result }
    ensures later { L.later link.new ≡ L.later link.old }
    ensures sent { L.sent link.new ≡ L.sent link.old }
    ensures nexts { L.next_faults link.new ≡ L.next_faults link.old }
{
    let Some(end) = read_head(link, &mut room.buffer)? else {
        return Ok(None);
    };
    let head = front_of(room.buffer.bytes(), end);
    let frame = match read_frame(head, room.fields.as_mut_slice()) {
        Ok(frame) => frame,
        Err(fault) => return Err(fault),
    };
    let whole = end + frame.size;
    match read_body(link, &mut room.buffer, whole) {
        Ok(()) => {}
        Err(fault) => return Err(fault),
    }
    match request_from(alloc, room.buffer.bytes(), end, &frame) {
        Ok(request) => {
            room.buffer.take_front(whole);
            Ok(Some(request))
        }
        Err(_) => Err(ReadFault::Memory),
    }
}
