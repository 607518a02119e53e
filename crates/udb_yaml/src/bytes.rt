//! Places in the bytes of one line.

ghost use Rattle.std.specs.Prelude.{◌≡◌, ◌+◌, ◌≤◌, length, take, drop, nat_lt, slice_index, ◌<◌};
ghost use Rattle.std.specs.Str.{IsCharBoundary};
ghost use Rattle.yaml_spec.specs.Line as line;
ghost use Rattle.yaml_spec.specs.Reading as spec;
ghost use Rattle.udb_yaml.specs.Places.{pair_place, ColonAt};

/// How many spaces stand in front.
pub fn front(text: &[u8]) -> usize
    ensures count { result ≡ spec.front text.now }
    ensures within { result ≤ length text.now }
{
    let mut at = 0;
    'spaces: while at < text.len() {
        if text[at] != b' ' {
            return at;
        }
        at += 1;
    }
    at
}

/// Whether these are spaces alone, or spaces and a comment.
pub fn is_tail(text: &[u8]) -> bool
    ensures { result ≡ spec.is_tail text.now }
{
    let at = front(text);
    at == text.len() || (at > 0 && text[at] == b'#')
}

/// The place of the first two bytes that are these, or the end.
fn pair(first: u8, second: u8, text: &[u8]) -> usize
    ensures place { result ≡ pair_place first second text.now }
    ensures next { result < length text.now → slice_index text.now result ≡ first }
    ensures within { result ≤ length text.now }
{
    let mut at = 0;
    'bytes: while at < text.len() {
        if text[at] == first && at + 1 < text.len() && text[at + 1] == second {
            return at;
        }
        at += 1;
    }
    at
}

/// Whether two bytes in a row are these.
pub fn has_pair(first: u8, second: u8, text: &[u8]) -> bool
    ensures { result ≡ line.has_pair first second text.now }
{
    pair(first, second, text) < text.len()
}

/// How long the text is without the spaces at its end.
pub fn trim(text: &[u8]) -> usize
    ensures content { spec.trim text.now ≡ take result text.now }
    ensures next { result < length text.now → slice_index text.now result ≡ 32 }
    ensures within { result ≤ length text.now }
{
    let mut end = text.len();
    'spaces: while end > 0 && text[end - 1] == b' ' {
        end -= 1;
    }
    end
}

/// How long a line is without its tail: spaces at its end, or a space and a comment.
pub fn lean(text: &[u8]) -> usize
    ensures content { spec.lean text.now ≡ take result text.now }
    ensures tail { spec.tail text.now ≡ drop result text.now }
    ensures next { result < length text.now → slice_index text.now result ≡ 32 }
    ensures within { result ≤ length text.now }
{
    trim(&text[..pair(b' ', b'#', text)])
}

/// Whether the byte is one of `, [ ] { }`.
pub fn is_flow(byte: u8) -> bool
    ensures { result ≡ line.is_flow byte }
{
    matches!(byte, b',' | b'[' | b']' | b'{' | b'}')
}

/// The place of the first of `, [ ] { }`, or the end.
pub fn signless(text: &[u8]) -> usize
    ensures content { spec.signless text.now ≡ take result text.now }
    ensures next { result < length text.now → slice_index text.now result < 128 }
    ensures any { line.has_flow text.now ≡ (nat_lt result (length text.now)) }
    ensures within { result ≤ length text.now }
{
    let mut at = 0;
    'bytes: while at < text.len() {
        if is_flow(text[at]) {
            return at;
        }
        at += 1;
    }
    at
}

/// Whether a text begins with this byte.
pub fn begins(byte: u8, text: &[u8]) -> bool
    ensures { result ≡ line.begins byte text.now }
{
    text.len() > 0 && text[0] == byte
}

/// Whether a text is empty or begins with a space.
pub fn parts_here(text: &[u8]) -> bool
    ensures { result ≡ line.parts_here text.now }
{
    text.len() == 0 || text[0] == b' '
}

/// The place of the first colon before a space or the end.
pub fn colon(text: &[u8]) -> Option<usize>
    ensures { ColonAt text.now (spec.to_colon text.now) result }
{
    let mut at = 0;
    'bytes: while at < text.len() {
        if text[at] == b':' && parts_here(&text[at + 1..]) {
            return Some(at);
        }
        at += 1;
    }
    None
}

/// What follows so many bytes.
pub fn after(text: &[u8], count: usize) -> &[u8]
    requires { count ≤ length text.now }
    ensures { result.now ≡ drop count text.now }
{
    text.split_at(count).1
}

/// What follows so many bytes of a text.
pub fn text_after(text: &str, count: usize) -> &str
    requires { IsCharBoundary text.now count }
    ensures { result.now ≡ drop count text.now }
{
    &text[count..]
}

/// So many bytes of a text.
pub fn text_before(text: &str, count: usize) -> &str
    requires { IsCharBoundary text.now count }
    ensures { result.now ≡ take count text.now }
{
    &text[..count]
}

/// How long a plain scalar in flow is.
pub fn plain(text: &[u8]) -> usize
    ensures content { spec.trim (spec.signless text.now) ≡ take result text.now }
    ensures next { result < length text.now → slice_index text.now result < 128 }
    ensures within { result ≤ length text.now }
{
    trim(&text[..signless(text)])
}
