//! One head, exactly, and what it says.

ghost use Rattle.std.specs.Prelude.{◌≡◌, ◌≤◌, length, MatchOption, MatchResult};
ghost use Rattle.httparse.specs.Grammar.{RequestHead};
ghost use Rattle.httparse.specs.Spans.{IsRequestAt, IsRequestWithin};
ghost use Rattle.udb_http.specs.Sessions.{IsHead, Refuses};
ghost use Rattle.udb_http.specs.Frames.{IsFrameOf, IsFrameWithin};

use crate::framing::{body_length, closes};
use crate::requests::ReadFault;
use httparse::Status;
use httparse::spans::{HeaderSpan, RequestSpans, Span, parse_request};

/// Where a head has its method and its target, how long the body after it is, and whether the
/// session closes.
#[derive(Clone, Copy)]
pub struct Frame {
    pub method: Span,
    pub path: Span,
    pub size: usize,
    pub close: bool,
}

// The parts of a head that is the whole of the bytes.
fn whole_head(head: &[u8], fields: &mut [HeaderSpan]) -> Option<RequestSpans>
    requires { length head.now ≤ length fields.old }
    ensures { MatchOption result
        ((h : RequestHead) → ¬ (IsHead head.now h))
        (λ spans. (spans.len ≡ length head.now) × IsRequestWithin head.now fields.new spans
        × ((h : RequestHead) × IsHead head.now h × IsRequestAt head.now fields.new spans h)) }
{
    match parse_request(head, fields) {
        Ok(Status::Complete(spans)) if spans.len == head.len() => Some(spans),
        _ => None,
    }
}

/// What bytes say that are a whole head, or why they are refused.
pub fn read_frame(head: &[u8], fields: &mut [HeaderSpan]) -> Result<Frame, ReadFault>
    requires { length head.now ≤ length fields.old }
    ensures { MatchResult result
        (λ frame. IsFrameWithin (length head.now) frame
        × ((h : RequestHead) × IsFrameOf head.now frame h))
        (λ fault. Refuses head.now fault) }
{
    let Some(spans) = whole_head(head, fields) else {
        return Err(ReadFault::BadHead);
    };
    let known = &fields[..spans.headers];
    let size = body_length(head, known, spans.method.of(head))?;
    Ok(Frame {
        method: spans.method,
        path: spans.path,
        size,
        close: closes(head, known, spans.version),
    })
}
