//! Replies as bytes (RFC 9112, sections 4 to 6).

ghost use Rattle.std.specs.Prelude.{◌≡◌, ◌++◌, [], None, length, codes, decimal, unwrap_or, string_bytes, IfOk};
ghost use Rattle.http.specs.StatusCode.{reason_phrase};
ghost use Rattle.udb_http.specs.Replies.{IsReply, IsReplyStatus, body_of, type_line, methods_text, allow_line, close_line, head_text, reply_text, out_of_memory};

use http::{Method, StatusCode};
use std::alloc::Global;
use udb_base::{Many, NoMemory};

/// Bytes, which contracts see as the list of them.
pub type Bytes = Many<u8>;

/// Methods in an order.
pub type Methods = Many<Method>;

/// What a reply's body is.
#[derive(Clone, Copy, PartialEq, Eq)]
pub enum Form {
    Json,
    Plain,
}

/// A reply. `allow` has the methods that a path answers to, for status 405 alone. `close` says that
/// the session is closed after it. The body of a 503 stands in no reply: its text is a constant.
#[derive(Drop)]
pub struct Reply {
    pub status: u16,
    pub form: Form,
    pub body: Bytes,
    pub allow: Option<Methods>,
    pub close: bool,
}

// The phrase of a status.
fn phrase_of(status: u16) -> &'static str
    requires { IsReplyStatus status }
    ensures { result.now ≡ unwrap_or (reason_phrase status) [] }
{
    match StatusCode::from_u16(status) {
        Ok(status) => status.canonical_reason().unwrap_or(""),
        Err(_) => unreachable!(),
    }
}

fn type_line(form: Form) -> &'static str
    ensures { result.now ≡ type_line form }
{
    match form {
        Form::Json => "Content-Type: application/json\r\n",
        Form::Plain => "Content-Type: text/plain; charset=utf-8\r\n",
    }
}

fn close_line(close: bool) -> &'static str
    ensures { result.now ≡ close_line close }
{
    if close { "Connection: close\r\n" } else { "" }
}

fn methods_text(alloc: Global, methods: &[Method]) -> Result<String, NoMemory>
    ensures { IfOk result (λ s. string_bytes s ≡ methods_text methods.now) }
{
    match methods.split_first() {
        Some((first, rest)) => {
            let mut text = String::from_str(alloc, first.as_str())?;
            for method in rest {
                text.push_str(", ")?;
                text.push_str(method.as_str())?;
            }
            Ok(text)
        }
        None => Ok(String::new(alloc)),
    }
}

fn allow_line(alloc: Global, allow: &Option<Methods>) -> Result<String, NoMemory>
    ensures { IfOk result (λ s. string_bytes s ≡ allow_line allow.now) }
{
    match allow {
        Some(methods) => {
            let methods = methods_text(alloc, methods.as_slice())?;
            format!(in alloc; "Allow: {methods}\r\n")
        }
        None => Ok(String::new(alloc)),
    }
}

// The head of a reply whose body has so many bytes.
fn head_text(alloc: Global, reply: &Reply, size: usize, allow: &str) -> Result<String, NoMemory>
    requires { IsReplyStatus reply.now.status }
    ensures { IfOk result (λ s. string_bytes s
        ≡ head_text reply.now.status reply.now.form size allow.now reply.now.close) }
{
    let status = reply.status;
    let phrase = phrase_of(status);
    let form = type_line(reply.form);
    let close = close_line(reply.close);
    format!(in alloc;
        "HTTP/1.1 {status} {phrase}\r\n{form}Content-Length: {size}\r\n{allow}{close}\r\n"
    )
}

fn body_of(reply: &Reply) -> &[u8]
    ensures { result.now ≡ body_of reply.now }
{
    if reply.status == 503 {
        br#"{"error":"out of memory"}"#
    } else {
        reply.body.as_slice()
    }
}

/// The bytes of a reply, head and body. The one refusal is want of memory.
pub fn reply_bytes(alloc: Global, reply: &Reply) -> Result<Bytes, NoMemory>
    requires { IsReply reply.now }
    ensures { IfOk result (λ bytes. bytes ≡ reply_text reply.now) }
{
    let body = body_of(reply);
    let allow = allow_line(alloc, &reply.allow)?;
    let mut bytes = head_text(alloc, reply, body.len(), allow.as_str())?.into_bytes();
    bytes.extend_from_slice(body)?;
    Ok(Many::from_vec(bytes))
}

/// The bytes of the reply for want of memory, which take none.
pub fn unavailable_bytes(close: bool) -> &'static [u8]
    ensures { result.now ≡ reply_text (out_of_memory close) }
{
    if close {
        b"HTTP/1.1 503 Service Unavailable\r\nContent-Type: application/json\r\n\
Content-Length: 25\r\nConnection: close\r\n\r\n{\"error\":\"out of memory\"}"
    } else {
        b"HTTP/1.1 503 Service Unavailable\r\nContent-Type: application/json\r\n\
Content-Length: 25\r\n\r\n{\"error\":\"out of memory\"}"
    }
}
