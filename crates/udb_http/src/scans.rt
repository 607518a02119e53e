//! The search for the end of a head, which goes on where it stopped when more bytes come.

ghost use Rattle.std.specs.Prelude.{◌≡◌, ◌≤◌, ◌+◌, ◌∷◌, ◌++◌, ℕ, List, true, cond, drop, length, Some, None, MatchOption, option_map};
ghost use Rattle.udb_http.specs.Heads.{is_empty_line, longer, one_more, head_from, head_length};
ghost use Rattle.udb_http.specs.Scans.{IsScanned};

/// What a line has so far: nothing, one CR alone, or more.
#[derive(Clone, Copy)]
pub enum Line {
    Empty,
    Return,
    Text,
}

/// How far a head was searched: whether a line that isn't empty has ended, what the line at hand
/// has, and how many bytes were searched.
#[derive(Clone, Copy)]
pub struct Scan {
    pub begun: bool,
    pub line: Line,
    pub at: usize,
}

fn is_empty_line(line: Line) -> bool
    ensures { result ≡ is_empty_line line }
{
    match line {
        Line::Empty | Line::Return => true,
        Line::Text => false,
    }
}

fn longer(line: Line, byte: u8) -> Line
    ensures { result ≡ longer line byte }
{
    match line {
        Line::Empty => {
            if byte == b'\r' {
                Line::Return
            } else {
                Line::Text
            }
        }
        Line::Return | Line::Text => Line::Text,
    }
}

// Goes on by a byte, and says whether the head ends with it.
fn step(scan: &mut Scan, byte: u8) -> bool
    ensures next { (bytes : List ℕ) → head_from scan.old.begun scan.old.line (byte ∷ bytes)
        ≡ cond result (Some 1) (one_more (head_from scan.new.begun scan.new.line bytes)) }
    ensures at { scan.new.at ≡ scan.old.at }
{
    if byte != b'\n' {
        scan.line = longer(scan.line, byte);
        return false;
    }
    let is_empty = is_empty_line(scan.line);
    let ends = is_empty && scan.begun;
    scan.begun = !is_empty;
    scan.line = Line::Empty;
    ends
}

/// The length of the head that begins the bytes, whatever follows them; none where it doesn't end
/// in them. The search goes on where it stopped at a front of these bytes.
pub fn find_end(bytes: &[u8], scan: &mut Scan) -> Option<usize>
    requires { IsScanned bytes.now scan.old }
    ensures found { MatchOption result
        ((scan.new.at ≡ length bytes.now) × IsScanned bytes.now scan.new)
        (λ n. (n ≤ length bytes.now) × ((more : List ℕ) → head_length (bytes.now ++ more) ≡ Some n)) }
{
    let start = scan.at;
    for byte in &bytes[start..] {
        let ends = step(scan, *byte);
        scan.at += 1;
        if ends {
            return Some(scan.at);
        }
    }
    None
}
