//! Reads cases, one a line, and prints each with what `udb_http` answers for it. In a text `\n` is
//! a line feed, `\r` a carriage return and `\\` a backslash.
//!
//! - `session CUT TEXT`: the requests of a session of these bytes, of which a read gives at most
//!   CUT.
//! - `fails CALL TEXT`: the same, at most 9 bytes a read, where the link's call of that number
//!   fails.
//! - `built N FRONT|PART|END`: the session of FRONT, N times PART, and END.
//! - `fronts TEXT`: how the sessions end that are a front of these bytes, but for the whole.
//! - `route PATH`: the route of the path and its methods.
//! - `reply STATUS FORM CLOSE BODY`: the bytes of that reply; a 405 allows GET, PUT and DELETE.
//! - `refusal WORD`: the status and the body of a refusal.
//!
//! Of a request the method, the path and the body are told, of a long body its length.
#![tactic(auto)]

ghost use Rattle.std.specs.Prelude.{◌≡◌, ◌↔◌, ◌≤◌, IfOk, IsSome};
ghost use Rattle.udb_http.specs.Replies.{IsReplyStatus};

use case_text::{line_of, text_of};
use std::alloc::{AllocError, Global};
use std::io;
use udb_base::{Kind, Link, Many, MemoryLink, kind_word};
use udb_http::{
    Form, Method, Methods, ReadFault, Refusal, Reply, Request, Room, Route, Routes, done_text,
    read_request, refusal_of, refusal_status, refusal_text, reply_bytes, route, route_methods,
    routes, unavailable_bytes,
};

/// No session is built of more pieces, and none has more requests.
const MOST: usize = 100_000;

/// A longer body is told by its length.
const SHORT: usize = 24;

fn shown(alloc: Global, bytes: &[u8]) -> Result<String, AllocError> {
    match std::str::from_utf8(bytes) {
        Ok(text) if text.len() <= SHORT => line_of(alloc, text),
        _ => format!(in alloc; "{} bytes", bytes.len()),
    }
}

fn request_told(alloc: Global, request: &Request) -> Result<String, AllocError> {
    let body = shown(alloc, request.body.as_slice())?;
    let path = request.path.as_str();
    let close = if request.close { " close" } else { "" };
    format!(in alloc; "{} {path} [{body}]{close}; ", request.method.as_str())
}

fn fault_told(alloc: Global, fault: ReadFault) -> Result<String, AllocError> {
    match refusal_of(fault) {
        Some(refusal) => format!(in alloc; "{}", refusal_status(refusal)),
        None if fault == ReadFault::Cut => "cut".to_string(alloc),
        None => "link".to_string(alloc),
    }
}

// The requests that a link gives, up to the one after which the session closes.
fn told_of(alloc: Global, link: &mut MemoryLink) -> Result<String, AllocError> {
    let mut room = Room::new(alloc)?;
    let mut told = String::new(alloc);
    for _ in 0..MOST {
        match read_request(alloc, link, &mut room) {
            Ok(Some(request)) => {
                told.push_str(request_told(alloc, &request)?.as_str())?;
                if request.close {
                    told.push_str("closed")?;
                    return Ok(told);
                }
            }
            Ok(None) => {
                told.push_str("end")?;
                return Ok(told);
            }
            Err(fault) => {
                told.push_str(fault_told(alloc, fault)?.as_str())?;
                return Ok(told);
            }
        }
    }
    Ok(told)
}

fn session_told(
    alloc: Global,
    bytes: &[u8],
    cut: usize,
    fails: &[u64],
) -> Result<String, AllocError> {
    let mut link = MemoryLink::new(alloc, &[bytes], cut.max(1), 0, fails)?;
    match link.next() {
        Ok(true) => told_of(alloc, &mut link),
        Ok(false) => "no session".to_string(alloc),
        Err(_) => "next failed".to_string(alloc),
    }
}

fn number(word: &str) -> usize {
    word.parse::<usize>().unwrap_or(0).min(MOST)
}

fn numbered(alloc: Global, rest: &str) -> Result<(usize, String), AllocError> {
    let (count, text) = rest.split_once(' ').unwrap_or((rest, ""));
    let text = text_of(alloc, text)?;
    Ok((number(count), text))
}

fn built(alloc: Global, rest: &str) -> Result<String, AllocError> {
    let (count, pattern) = rest.split_once(' ').unwrap_or((rest, ""));
    let (front, more) = pattern.split_once('|').unwrap_or((pattern, ""));
    let (part, end) = more.split_once('|').unwrap_or((more, ""));
    let mut bytes = text_of(alloc, front)?;
    let part = text_of(alloc, part)?;
    for _ in 0..number(count) {
        bytes.push_str(part.as_str())?;
    }
    bytes.push_str(text_of(alloc, end)?.as_str())?;
    session_told(alloc, bytes.as_bytes(), MOST, &[])
}

fn fronts(alloc: Global, text: &str) -> Result<String, AllocError> {
    let text = text_of(alloc, text)?;
    let bytes = text.as_bytes();
    let mut ends = 0_usize;
    let mut cuts = 0_usize;
    for size in 0..bytes.len() {
        let told = session_told(alloc, &bytes[..size], 7, &[])?;
        match told.as_str() {
            "end" => ends = ends.saturating_add(1),
            "cut" => cuts = cuts.saturating_add(1),
            other => return format!(in alloc; "{size}: {other}"),
        }
    }
    format!(in alloc; "end {ends} cut {cuts}")
}

fn methods_told(alloc: Global, methods: &[Method]) -> Result<String, AllocError> {
    let mut told = String::new(alloc);
    for method in methods {
        told.push_str(" ")?;
        told.push_str(method.as_str())?;
    }
    Ok(told)
}

fn route_name(alloc: Global, route: &Route) -> Result<String, AllocError> {
    match route {
        Route::Entries => "entries".to_string(alloc),
        Route::Entry { kind, name } => {
            format!(in alloc; "entry {} {}", kind_word(*kind), name.as_str())
        }
        Route::Manual { config } => format!(in alloc; "manual {}", config.as_str()),
        Route::Decode { config, word } => {
            format!(in alloc; "decode {} {}", config.as_str(), word.as_str())
        }
        Route::Run { config, steps } => {
            format!(in alloc; "run {} {}", config.as_str(), steps.as_str())
        }
        Route::Proof { config, kind, name } => {
            let kind: Kind = *kind;
            format!(in alloc;
                "proof {} {} {}",
                config.as_str(),
                kind_word(kind),
                name.as_str()
            )
        }
    }
}

fn route_told(alloc: Global, routes: &Routes, path: &str) -> Result<String, AllocError> {
    match route(alloc, routes, path)? {
        Some(route) => {
            let methods = route_methods(alloc, &route)?;
            let mut told = route_name(alloc, &route)?;
            told.push_str(":")?;
            told.push_str(methods_told(alloc, methods.as_slice())?.as_str())?;
            Ok(told)
        }
        None => "no route".to_string(alloc),
    }
}

fn status_of(word: &str) -> u16
    ensures { IsReplyStatus result }
{
    match word {
        "200" => 200,
        "400" => 400,
        "404" => 404,
        "405" => 405,
        "409" => 409,
        "411" => 411,
        "413" => 413,
        "422" => 422,
        "431" => 431,
        "500" => 500,
        _ => 503,
    }
}

fn allowed(alloc: Global, status: u16) -> Result<Option<Methods>, AllocError>
    ensures { IfOk result (λ allow. IsSome allow ↔ (status ≡ 405)) }
{
    if status != 405 {
        return Ok(None);
    }
    let methods = vec![in alloc; Method::GET, Method::PUT, Method::DELETE]?;
    Ok(Some(Many::from_vec(methods)))
}

fn reply_told(
    alloc: Global,
    status: u16,
    form: Form,
    close: bool,
    body: &[u8],
) -> Result<String, AllocError>
    requires { IsReplyStatus status }
{
    let reply = Reply {
        status,
        form,
        body: Many::from_slice(alloc, body)?,
        allow: allowed(alloc, status)?,
        close,
    };
    let bytes = reply_bytes(alloc, &reply)?;
    let kept = status == 503 && bytes.as_slice() == unavailable_bytes(close);
    let text = std::str::from_utf8(bytes.as_slice()).unwrap_or("no text");
    let line = line_of(alloc, text)?;
    let constant = if kept { " (constant)" } else { "" };
    format!(in alloc; "{line}{constant}")
}

fn reply_case(alloc: Global, rest: &str) -> Result<String, AllocError> {
    let (status, rest) = rest.split_once(' ').unwrap_or((rest, ""));
    let (form, rest) = rest.split_once(' ').unwrap_or((rest, ""));
    let (close, body) = rest.split_once(' ').unwrap_or((rest, ""));
    let form = if form == "json" {
        Form::Json
    } else {
        Form::Plain
    };
    let body = text_of(alloc, body)?;
    reply_told(
        alloc,
        status_of(status),
        form,
        close == "close",
        body.as_bytes(),
    )
}

fn refusal_case(alloc: Global, word: &str) -> Result<String, AllocError> {
    let refusal = match word {
        "head" => Refusal::HeadTooLong,
        "request" => Refusal::BadRequest,
        "length" => Refusal::LengthRequired,
        "long" => Refusal::TooLong,
        "found" => Refusal::NotFound,
        "method" => Refusal::MethodNotAllowed,
        "keeper" => Refusal::KeeperFailed,
        "memory" => Refusal::OutOfMemory,
        _ => return done_text().to_string(alloc),
    };
    format!(in alloc; "{} {}", refusal_status(refusal), refusal_text(refusal))
}

fn case(alloc: Global, routes: &Routes, line: &str) -> Result<String, AllocError> {
    match line.split_once(' ') {
        Some(("session", rest)) => {
            let (cut, text) = numbered(alloc, rest)?;
            session_told(alloc, text.as_bytes(), cut, &[])
        }
        Some(("fails", rest)) => {
            let (call, text) = numbered(alloc, rest)?;
            session_told(alloc, text.as_bytes(), 9, &[call as u64])
        }
        Some(("built", rest)) => built(alloc, rest),
        Some(("fronts", text)) => fronts(alloc, text),
        Some(("route", path)) => route_told(alloc, routes, path),
        Some(("reply", rest)) => reply_case(alloc, rest),
        Some(("refusal", word)) => refusal_case(alloc, word),
        _ => "no case".to_string(alloc),
    }
}

fn main(rt: HostRuntime) -> io::Result<()> {
    let routes = routes(rt.alloc())?;
    for line in rt.lines(rt.alloc()) {
        let line = line?;
        let told = case(rt.alloc(), &routes, line.as_str())?;
        println!(rt; "{line}\n    {told}")?;
    }
    Ok(())
}
