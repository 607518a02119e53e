//! Lines of bytes.

ghost use Rattle.std.specs.Prelude.{◌≡◌, ◌<◌, ◌∷◌, length, position};
ghost use Rattle.udb_bundle.specs.Bundles.{lines_of};
ghost use Rattle.udb_bundle.specs.Reading.{is_feed};

fn first_feed(bytes: &[u8]) -> Option<usize>
    ensures { result ≡ position is_feed bytes.now }
{
    bytes.iter().position(|byte| *byte == b'\n')
}

/// The first line without its line feed, and the bytes behind it.
pub fn first_line(bytes: &[u8]) -> (&[u8], &[u8])
    requires { 0 < length bytes.now }
    ensures lines { lines_of bytes.now ≡ result.0.now ∷ lines_of result.1.now }
    ensures shorter { length result.1.now < length bytes.now }
{
    match first_feed(bytes) {
        Some(at) => {
            let (line, rest) = bytes.split_at(at);
            (line, rest.split_at(1).1)
        }
        None => (bytes, &[]),
    }
}
