//! Laws on what the bytes of a session spell.

ghost use Rattle.udb_http.specs.Sessions.{GivesNext, OneAnswer};

/// Bytes spell at most one answer: nothing, one request, or one fault. This is a law on the
/// definitions.
pub fn one_answer()
    ensures { OneAnswer }
{}

/// What `read_request` answers of the bytes that are unread is the next of the session's requests,
/// and the further ones are those of the bytes that are left. This is a law on the definitions.
pub fn gives_next()
    ensures { GivesNext }
{}
