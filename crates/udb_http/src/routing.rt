//! Which route a path has.

ghost use Rattle.std.specs.Prelude.{◌≡◌, ◌≢◌, ◌++◌, ◌∷◌, ℕ, List, None, Some, ◌↔◌, MatchOption, IfOk, IsTrue, All};
ghost use Rattle.udb_base.specs.Kinds.{kind_word};
ghost use Rattle.udb_base.specs.Names.{IsName};
ghost use Rattle.udb_http.specs.Routes.{HasRoute, IsRoute, IsRouteAt, IsSegment, place_of, methods_of};
ghost use Rattle.udb_http.specs.Table.{table_rows};

use crate::paths::{Place, Route, Routes};
use crate::replies::Methods;
use http::Method;
use matchit::{InsertError, Router};
use std::alloc::{AllocError, Global};
use udb_base::{Chars, Kind, Many, Name, NameFault, NoMemory, name};

fn table(alloc: Global) -> Result<Router<Place>, InsertError>
    ensures { IfOk result (λ router. router ≡ table_rows) }
{
    let mut router = Router::new(alloc);
    router.insert("/entries", Place::Entries)?;
    router.insert("/entries/{kind}/{name}", Place::Entry)?;
    router.insert("/manuals/{config}", Place::Manual)?;
    router.insert("/decode/{config}/{hex}", Place::Decode)?;
    router.insert("/runs/{config}/{steps}", Place::Run)?;
    router.insert("/proofs/{config}/{kind}/{name}", Place::Proof)?;
    Ok(router)
}

/// The table of routes, for `route`. The one refusal is want of memory.
pub fn routes(alloc: Global) -> Result<Routes, NoMemory> {
    match table(alloc) {
        Ok(router) => Ok(Routes { router }),
        Err(_) => Err(AllocError),
    }
}

// The row of the table that a path has.
fn place(routes: &Routes, path: &str) -> Option<Place>
    ensures { (r : Route) → HasRoute path.now r → result ≡ Some (place_of r) }
{
    match routes.router.at(path) {
        Ok(found) => Some(*found.value),
        Err(_) => None,
    }
}

// The kind that a word names.
fn kind_of(word: &str) -> Option<Kind>
    ensures { MatchOption result
        ((k : Kind) → word.now ≢ kind_word k) (λ k. word.now ≡ kind_word k) }
{
    match word {
        "extension" => Some(Kind::Extension),
        "parameter" => Some(Kind::Parameter),
        "instruction" => Some(Kind::Instruction),
        "csr" => Some(Kind::Csr),
        "functions" => Some(Kind::Functions),
        "config" => Some(Kind::Config),
        _ => None,
    }
}

// The name that a segment is.
fn name_of(alloc: Global, segment: &str) -> Result<Option<Name>, NoMemory>
    ensures { IfOk result (λ o. MatchOption o
        (¬ (IsName segment.now)) (λ n. (n ≡ segment.now) × IsName segment.now)) }
{
    match name(alloc, segment) {
        Ok(name) => Ok(Some(name)),
        Err(NameFault::BadName) => Ok(None),
        Err(NameFault::Memory) => Err(AllocError),
    }
}

// What follows a front of a path.
fn after<'a>(path: &'a str, front: &str) -> Option<&'a str>
    ensures { MatchOption result
        ((rest : List ℕ) → path.now ≢ front.now ++ rest)
        (λ rest. path.now ≡ front.now ++ rest.now) }
{
    path.strip_prefix(front)
}

// The first segment of a path and what follows the slash after it.
fn cut(path: &str) -> Option<(&str, &str)>
    ensures { MatchOption result
        ((a b : List ℕ) → path.now ≢ a ++ 47 ∷ b)
        (λ x. (path.now ≡ x.0.now ++ 47 ∷ x.1.now) × All (λ b. b ≢ 47) x.0.now) }
{
    path.split_once('/')
}

// A kind and a name, in two segments.
fn kind_and_name(alloc: Global, path: &str) -> Result<Option<(Kind, Name)>, NoMemory>
    ensures { IfOk result (λ o. MatchOption o
        ((k : Kind) (n : List ℕ) → IsName n → path.now ≢ kind_word k ++ 47 ∷ n)
        (λ x. (path.now ≡ kind_word x.0 ++ 47 ∷ x.1) × IsName x.1)) }
{
    let Some((word, segment)) = cut(path) else {
        return Ok(None);
    };
    let Some(kind) = kind_of(word) else {
        return Ok(None);
    };
    match name_of(alloc, segment)? {
        Some(name) => Ok(Some((kind, name))),
        None => Ok(None),
    }
}

// A name and what follows the slash after it.
fn name_and_rest(alloc: Global, path: &str) -> Result<Option<(Name, &str)>, NoMemory>
    ensures { IfOk result (λ o. MatchOption o
        ((n rest : List ℕ) → IsName n → path.now ≢ n ++ 47 ∷ rest)
        (λ x. (path.now ≡ x.0 ++ 47 ∷ x.1.now) × IsName x.0)) }
{
    let Some((segment, rest)) = cut(path) else {
        return Ok(None);
    };
    match name_of(alloc, segment)? {
        Some(name) => Ok(Some((name, rest))),
        None => Ok(None),
    }
}

fn entry_route(alloc: Global, path: &str) -> Result<Option<Route>, NoMemory>
    ensures { IfOk result (IsRouteAt path.now Place.Entry) }
{
    let Some(rest) = after(path, "/entries/") else {
        return Ok(None);
    };
    match kind_and_name(alloc, rest)? {
        Some((kind, name)) => Ok(Some(Route::Entry { kind, name })),
        None => Ok(None),
    }
}

fn manual_route(alloc: Global, path: &str) -> Result<Option<Route>, NoMemory>
    ensures { IfOk result (IsRouteAt path.now Place.Manual) }
{
    let Some(segment) = after(path, "/manuals/") else {
        return Ok(None);
    };
    match name_of(alloc, segment)? {
        Some(config) => Ok(Some(Route::Manual { config })),
        None => Ok(None),
    }
}

fn is_segment(text: &str) -> bool
    ensures { IsTrue result ↔ IsSegment text.now }
{
    let bytes = text.as_bytes();
    !bytes.is_empty() && bytes.iter().all(|byte| *byte != b'/')
}

// After a front a name and a last segment.
fn name_and_segment(
    alloc: Global,
    path: &str,
    front: &str,
) -> Result<Option<(Name, Chars)>, NoMemory>
    ensures { IfOk result (λ o. MatchOption o
        ((n w : List ℕ) → IsName n → IsSegment w → path.now ≢ front.now ++ (n ++ 47 ∷ w))
        (λ x. (path.now ≡ front.now ++ (x.0 ++ 47 ∷ x.1)) × IsName x.0 × IsSegment x.1)) }
{
    let Some(rest) = after(path, front) else {
        return Ok(None);
    };
    let Some((name, segment)) = name_and_rest(alloc, rest)? else {
        return Ok(None);
    };
    if !is_segment(segment) {
        return Ok(None);
    }
    Ok(Some((name, Chars::of(alloc, segment)?)))
}

fn decode_route(alloc: Global, path: &str) -> Result<Option<Route>, NoMemory>
    ensures { IfOk result (IsRouteAt path.now Place.Decode) }
{
    match name_and_segment(alloc, path, "/decode/")? {
        Some((config, word)) => Ok(Some(Route::Decode { config, word })),
        None => Ok(None),
    }
}

fn run_route(alloc: Global, path: &str) -> Result<Option<Route>, NoMemory>
    ensures { IfOk result (IsRouteAt path.now Place.Run) }
{
    match name_and_segment(alloc, path, "/runs/")? {
        Some((config, steps)) => Ok(Some(Route::Run { config, steps })),
        None => Ok(None),
    }
}

fn proof_route(alloc: Global, path: &str) -> Result<Option<Route>, NoMemory>
    ensures { IfOk result (IsRouteAt path.now Place.Proof) }
{
    let Some(rest) = after(path, "/proofs/") else {
        return Ok(None);
    };
    let Some((config, rest)) = name_and_rest(alloc, rest)? else {
        return Ok(None);
    };
    match kind_and_name(alloc, rest)? {
        Some((kind, name)) => Ok(Some(Route::Proof { config, kind, name })),
        None => Ok(None),
    }
}

/// The route that a path has, taken as it stands: `None` answers a path that has none. The one
/// refusal is want of memory.
pub fn route(alloc: Global, routes: &Routes, path: &str) -> Result<Option<Route>, NoMemory>
    ensures { IfOk result (IsRoute path.now) }
{
    match place(routes, path) {
        Some(Place::Entries) if path == "/entries" => Ok(Some(Route::Entries)),
        Some(Place::Entry) => entry_route(alloc, path),
        Some(Place::Manual) => manual_route(alloc, path),
        Some(Place::Decode) => decode_route(alloc, path),
        Some(Place::Run) => run_route(alloc, path),
        Some(Place::Proof) => proof_route(alloc, path),
        _ => Ok(None),
    }
}

/// The methods of a route, in the order of the table. The one refusal is want of memory.
pub fn route_methods(alloc: Global, route: &Route) -> Result<Methods, NoMemory>
    ensures { IfOk result (λ methods. methods ≡ methods_of route.now) }
{
    let methods = match route {
        Route::Entries | Route::Manual { .. } | Route::Decode { .. } | Route::Proof { .. } => {
            vec![in alloc; Method::GET]?
        }
        Route::Entry { .. } => vec![in alloc; Method::GET, Method::PUT, Method::DELETE]?,
        Route::Run { .. } => vec![in alloc; Method::POST]?,
    };
    Ok(Many::from_vec(methods))
}
