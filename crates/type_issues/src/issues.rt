//! Issues of nodes, and the checks of a body's nodes.

ghost use Rattle.std.specs.Prelude.{◌≡◌, ◌++◌, ◌∷◌, [], OnOk};
ghost use Rattle.idl_spec.specs.Demands.{mismatch, unknown_name, mismatch_unless, unknown_unless, demand};
ghost use Rattle.type_issues.specs.Issues.{issue_of, issues_of, demand_of};

use idl_tree::Width;
use std::alloc::Global;
use udb_base::{Boxed, Cond, Conds, Copied, Many, Name, NoMemory};

/// Between which numbers a width has to lie.
#[derive(Clone, Copy)]
pub enum Limits {
    /// 1 to 128, the widths of values and the counts of repetitions.
    Width,
    /// 0 to 127, the amounts of the left shift that widens.
    Shift,
    /// 0 to 4,294,967,295, the bounds of a loop.
    Bound,
    /// At most 1,024, the turns of a loop.
    Turns,
}

/// A demand on the full configurations in which a place is reached: the number of a width lies
/// within limits, two places cut a slice out of a width, a condition holds, a field is present.
#[derive(Drop)]
pub enum Demand {
    InRange {
        limits: Limits,
        width: Boxed<Width>,
    },
    InSlice {
        high: Boxed<Width>,
        low: Boxed<Width>,
        of: Boxed<Width>,
    },
    Defined(Boxed<Cond>),
    Present {
        csr: Name,
        field: Name,
    },
}

/// What is wrong at a node, or has to hold there.
#[derive(Drop)]
pub enum Issue {
    UnknownName(Name),
    /// A function that is declared later.
    LaterFunction(Name),
    /// Kinds that don't fit.
    Mismatch,
    Demand(Demand),
}

/// Issues, in the order in which they are raised.
pub type Issues = Many<Issue>;

/// What a node asks, and the conditions under which it is reached.
#[derive(Drop)]
pub struct Check {
    pub context: Conds,
    pub issues: Issues,
}

/// The checks of a body's nodes in prefix order, the header's first.
pub type Checks = Many<Check>;

/// Raises an issue. The one refusal is want of memory.
pub fn push_issue(issues: &mut Issues, issue: Issue) -> Result<(), NoMemory>
    ensures { OnOk result (issues_of issues.new ≡ issues_of issues.old ++ issue_of issue ∷ []) }
{
    issues.push(issue)?;
    Ok(())
}

/// Raises a demand. The one refusal is want of memory.
pub fn push_demand(issues: &mut Issues, one: Demand) -> Result<(), NoMemory>
    ensures { OnOk result (issues_of issues.new
        ≡ issues_of issues.old ++ demand (demand_of one) ∷ []) }
{
    push_issue(issues, Issue::Demand(one))
}

/// Raises a mismatch unless what was examined fits.
pub fn push_mismatch(issues: &mut Issues, fits: bool) -> Result<(), NoMemory>
    ensures { OnOk result (issues_of issues.new ≡ issues_of issues.old ++ mismatch_unless fits) }
{
    if fits {
        return Ok(());
    }
    push_issue(issues, Issue::Mismatch)
}

/// Raises a name as unknown unless it is known.
pub fn push_unknown(
    alloc: Global,
    issues: &mut Issues,
    known: bool,
    name: &Name,
) -> Result<(), NoMemory>
    ensures { OnOk result (issues_of issues.new
        ≡ issues_of issues.old ++ unknown_unless known name.now) }
{
    if known {
        return Ok(());
    }
    push_issue(issues, Issue::UnknownName(name.copy(alloc)?))
}
