//! The service's side of HTTP/1.1: requests as the bytes of a session spell them, routes, replies.
#![tactic(auto)]

mod buffer;
mod framing;
mod heads;
mod laws;
mod paths;
mod reader;
mod refusals;
mod replies;
mod requests;
mod room;
mod routing;
mod scans;

pub use http::Method;
pub use laws::{gives_next, one_answer};
pub use paths::{Route, Routes};
pub use reader::read_request;
pub use refusals::{Refusal, done_text, refusal_of, refusal_status, refusal_text};
pub use replies::{Bytes, Form, Methods, Reply, reply_bytes, unavailable_bytes};
pub use requests::{ReadFault, Request};
pub use room::Room;
pub use routing::{route, route_methods, routes};
