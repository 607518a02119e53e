//! Which versions meet a requirement.

ghost use Rattle.std.specs.Prelude.{◌≡◌, ◌&&◌};
ghost use Rattle.udb_spec.specs.Versions.{same_version, version_lt, is_between, none_breaks, meets};

use udb_base::{Compare, Listed, Requirement, Version};

fn is_same(a: &Version, b: &Version) -> bool
    ensures { result ≡ same_version a.now b.now }
{
    a.major == b.major && (a.minor == b.minor && a.patch == b.patch)
}

/// Whether a version comes before another: versions compare part by part, the first part first.
pub fn is_below(a: &Version, b: &Version) -> bool
    ensures { result ≡ version_lt a.now b.now }
{
    a.major < b.major
        || (a.major == b.major && (a.minor < b.minor || (a.minor == b.minor && a.patch < b.patch)))
}

// Whether a listed version is marked as breaking and lies after one version and up to another.
fn breaks_between(listed: &Listed, after: &Version, last: &Version) -> bool
    ensures { result ≡ (listed.now.breaking && is_between after.now last.now listed.now.version) }
{
    listed.breaking && (is_below(after, &listed.version) && !is_below(last, &listed.version))
}

fn none_breaks_between(list: &[Listed], after: &Version, last: &Version) -> bool
    ensures { result ≡ none_breaks list.now after.now last.now }
{
    !list
        .iter()
        .any(|listed| breaks_between(listed, after, last))
}

/// Whether a version of the list meets a requirement. `~>` is met from the named version on, as
/// long as no listed version in between is marked as breaking.
pub fn meets(list: &[Listed], need: &Requirement, version: &Version) -> bool
    ensures { result ≡ meets list.now need.now version.now }
{
    let named = &need.version;
    match need.compare {
        Compare::Equal => is_same(version, named),
        Compare::NotEqual => !is_same(version, named),
        Compare::Above => is_below(named, version),
        Compare::AtLeast => !is_below(version, named),
        Compare::Below => is_below(version, named),
        Compare::AtMost => !is_below(named, version),
        Compare::Compatible => {
            !is_below(version, named) && none_breaks_between(list, named, version)
        }
    }
}
