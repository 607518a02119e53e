//! What is known of a condition where choices are still open.

ghost use Rattle.std.specs.Option.{ForSome};
ghost use Rattle.std.specs.Prelude.{◌≡◌, ◌≤◌, ◌||◌, ◌&&◌, true, false, not, map};
ghost use Rattle.udb_base.specs.declared.conditions.Value.TheVariants.{Number, Word};
ghost use Rattle.udb_spec.specs.Cells.{numbers_of};
ghost use Rattle.udb_spec.specs.Known.{known, ext_known, all_known, any_known, one_known};
ghost use Rattle.udb_cond.specs.Open.{test_over, test_at, test_in, needs_over, param_atom, HasTruth};
ghost use Rattle.udb_cond.specs.Steps.{steps_of};
ghost use Rattle.udb_cond.specs.Tests.{flags};
ghost use Rattle.udb_cond.specs.Tally.{verdict, one_by};

use crate::atoms::{choice_meets, flag_passes, number_passes, word_passes};
use crate::cells::{Cells, is_open, range_left};
use crate::ranges::{not_known, range_known};
use udb_base::{Chars, Cond, Domain, ExtSpace, Known, Name, Requirement, Space, Test, Value};

// Whether an atom holds for some of the cells that were counted, and whether it fails for some.
#[derive(Clone, Copy)]
struct Tally {
    holds: bool,
    fails: bool,
}

impl Tally {
    const NOTHING: Tally = Tally {
        holds: false,
        fails: false,
    };

    // One more choice, which counts where it is open.
    fn with(self, counts: bool, holds: bool) -> Tally
        ensures holds { result.holds ≡ (self.holds || (counts && holds)) }
        ensures fails { result.fails ≡ (self.fails || (counts && not holds)) }
    {
        Tally {
            holds: self.holds || (counts && holds),
            fails: self.fails || (counts && !holds),
        }
    }

    fn verdict(self) -> Known
        ensures { result ≡ verdict self.holds self.fails }
    {
        if !self.fails {
            Known::Yes
        } else if self.holds {
            Known::Unknown
        } else {
            Known::No
        }
    }
}

// The atom of an extension, by the choices that are left of it.
fn choices_known(cells: &Cells, place: usize, ext: &ExtSpace, needs: &[Requirement]) -> Known
    ensures { result ≡ needs_over (steps_of cells.now) place ext.now needs.now }
{
    let versions = ext.versions.as_slice();
    let mut tally = Tally::NOTHING.with(is_open(cells, false, place, 0), false);
    for (at, listed) in versions.iter().enumerate() {
        let counts = is_open(cells, false, place, at + 1);
        tally = tally.with(counts, choice_meets(versions, needs, &Some(listed.version)));
    }
    tally.verdict()
}

fn ext_known(space: &Space, name: &Name, needs: &[Requirement], cells: &Cells) -> Known
    ensures { result ≡ ext_known (steps_of cells.now) 0 space.now.extensions name.now needs.now }
{
    let extensions = space.extensions.as_slice();
    for (place, extension) in extensions.iter().enumerate() {
        if extension.name == *name {
            return choices_known(cells, place, extension, needs);
        }
    }
    Known::No
}

#[tactic(auto, using(crate::proofs::TallyLemmas::tally_laws))]
fn flags_known(cells: &Cells, place: usize, test: Test, given: &Value) -> Known
    ensures { result ≡ test_at (steps_of cells.now) place test given.now flags }
{
    let counts = is_open(cells, true, place, 0);
    let tally = Tally::NOTHING.with(counts, flag_passes(test, false, given));
    let counts = is_open(cells, true, place, 1);
    tally.with(counts, flag_passes(test, true, given)).verdict()
}

fn numbers_known(cells: &Cells, place: usize, numbers: &[u64], test: Test, given: &Value) -> Known
    ensures { result ≡ test_at (steps_of cells.now) place test given.now (map Number numbers.now) }
{
    let mut tally = Tally::NOTHING;
    for (at, number) in numbers.iter().enumerate() {
        let counts = is_open(cells, true, place, at);
        tally = tally.with(counts, number_passes(test, *number, given));
    }
    tally.verdict()
}

fn words_known(cells: &Cells, place: usize, words: &[Chars], test: Test, given: &Value) -> Known
    ensures { result ≡ test_at (steps_of cells.now) place test given.now (map Word words.now) }
{
    let mut tally = Tally::NOTHING;
    for (at, word) in words.iter().enumerate() {
        let counts = is_open(cells, true, place, at);
        tally = tally.with(counts, word_passes(test, word, given));
    }
    tally.verdict()
}

#[tactic(auto, using(crate::proofs::RangeLemmas::range_laws))]
fn left_known(left: Option<(u64, u64)>, test: Test, given: &Value) -> Known
    requires { ForSome left (λ ends. ends.0 ≤ ends.1) }
    ensures { result ≡ test_over test given.now (map Number (numbers_of left)) }
{
    match left {
        None => Known::Yes,
        Some((low, high)) => range_known(low, high, test, given),
    }
}

// The atom of a parameter, by the values that are left of it.
fn values_known(cells: &Cells, place: usize, domain: &Domain, test: Test, given: &Value) -> Known
    ensures { result ≡ test_in (steps_of cells.now) place test given.now domain.now }
{
    match domain {
        Domain::Flags => flags_known(cells, place, test, given),
        Domain::Numbers(numbers) => { numbers_known(cells, place, numbers.as_slice(), test, given) }
        Domain::Range { low, high } => {
            let left = range_left(cells, place, *low, *high);
            left_known(left, test, given)
        }
        Domain::Words(words) => words_known(cells, place, words.as_slice(), test, given),
    }
}

fn param_known(space: &Space, name: &Name, test: Test, given: &Value, cells: &Cells) -> Known
    ensures { result ≡ param_atom space.now (steps_of cells.now) name.now test given.now }
{
    let params = space.params.as_slice();
    for (place, param) in params.iter().enumerate() {
        if param.name == *name {
            return values_known(cells, place, &param.domain, test, given);
        }
    }
    Known::No
}

#[cycle(partial_truth)]
fn all_known(space: &Space, conds: &[Cond], cells: &Cells) -> Known
    ensures { result ≡ all_known (map (known space.now (steps_of cells.now)) conds.now) }
{
    let mut undecided = false;
    for cond in conds {
        match truth_within(space, cond, cells) {
            Known::Yes => {}
            Known::No => return Known::No,
            Known::Unknown => undecided = true,
        }
    }
    if undecided {
        Known::Unknown
    } else {
        Known::Yes
    }
}

#[cycle(partial_truth)]
fn any_known(space: &Space, conds: &[Cond], cells: &Cells) -> Known
    ensures { result ≡ any_known (map (known space.now (steps_of cells.now)) conds.now) }
{
    let mut undecided = false;
    for cond in conds {
        match truth_within(space, cond, cells) {
            Known::Yes => return Known::Yes,
            Known::No => {}
            Known::Unknown => undecided = true,
        }
    }
    if undecided { Known::Unknown } else { Known::No }
}

/// What is known of One by how many parts are Yes and whether one is Unknown.
pub fn one_by(holding: usize, undecided: bool) -> Known
    ensures { result ≡ one_by holding undecided }
{
    if holding >= 2 || (holding == 0 && !undecided) {
        Known::No
    } else if undecided {
        Known::Unknown
    } else {
        Known::Yes
    }
}

#[cycle(partial_truth)]
fn one_known(space: &Space, conds: &[Cond], cells: &Cells) -> Known
    ensures { result ≡ one_known (map (known space.now (steps_of cells.now)) conds.now) }
{
    let mut holding: usize = 0;
    let mut undecided = false;
    for cond in conds {
        match truth_within(space, cond, cells) {
            Known::Yes => holding += 1,
            Known::No => {}
            Known::Unknown => undecided = true,
        }
    }
    one_by(holding, undecided)
}

#[cycle(partial_truth)]
#[tactic(auto, using(crate::proofs::KnownLemmas::known_laws))]
fn truth_within(space: &Space, cond: &Cond, cells: &Cells) -> Known
    ensures { result ≡ known space.now (steps_of cells.now) cond.now }
{
    match cond {
        Cond::Always => Known::Yes,
        Cond::Never => Known::No,
        Cond::Ext { name, needs } => ext_known(space, name, needs.as_slice(), cells),
        Cond::Param { name, test, value } => param_known(space, name, *test, value, cells),
        Cond::All(parts) => all_known(space, parts.as_slice(), cells),
        Cond::Any(parts) => any_known(space, parts.as_slice(), cells),
        Cond::One(parts) => one_known(space, parts.as_slice(), cells),
        Cond::Not(part) => not_known(truth_within(space, part.get(), cells)),
    }
}

/// What a path of cells tells of a condition. Yes and No hold in every full configuration within
/// the cells. Where the path leaves a variable no choice, its atoms count as Yes; the atom of a
/// variable that the space doesn't have is No.
pub fn holds3(space: &Space, cond: &Cond, cells: &Cells) -> Known
    ensures answer { result ≡ known space.now (steps_of cells.now) cond.now }
    ensures yes { result ≡ Known.Yes → HasTruth space.now (steps_of cells.now) cond.now true }
    ensures no { result ≡ Known.No → HasTruth space.now (steps_of cells.now) cond.now false }
{
    truth_within(space, cond, cells)
}
