//! What a demand asks of widths, in a full configuration.

ghost use Rattle.std.specs.Prelude.{◌≡◌};
ghost use Rattle.type_issues.specs.Issues.{demand_of, lowest, highest};
ghost use Rattle.type_demands.specs.Reads.{reads, demand_reads, widths_meet};

use idl_tree::Width;
use idl_width::{BitsScope, width_value};
use type_issues::{Demand, Limits};
use udb_base::{Full, Space};

#[tactic(auto, using(crate::proofs::ReadLaws::read_laws))]
fn reads(name: &str, width: &Width) -> bool
    ensures { result ≡ reads name.now width.now }
{
    match width {
        Width::Number(_) => false,
        Width::Word(word) => word.as_str() == name,
        Width::Plus(a, z) => reads(name, a.get()) || reads(name, z.get()),
        Width::Minus(a, z) => reads(name, a.get()) || reads(name, z.get()),
        Width::Times(a, z) => reads(name, a.get()) || reads(name, z.get()),
        Width::Max(a, z) => reads(name, a.get()) || reads(name, z.get()),
        Width::Bits { csr: _, name: _ } => "MXLEN" == name,
    }
}

/// Whether a width that a demand compares depends on the parameter of a name.
pub fn demand_reads(demand: &Demand, name: &str) -> bool
    ensures { result ≡ demand_reads (demand_of demand.now) name.now }
{
    match demand {
        Demand::InRange { limits: _, width } => reads(name, width.get()),
        Demand::InSlice { high, low, of } => {
            reads(name, high.get()) || reads(name, low.get()) || reads(name, of.get())
        }
        Demand::Defined(_) => false,
        Demand::Present { csr: _, field: _ } => false,
    }
}

fn lowest(limits: Limits) -> i64
    ensures { result ≡ lowest limits }
{
    match limits {
        Limits::Width => 1,
        Limits::Shift => 0,
        Limits::Bound => 0,
        Limits::Turns => -1_000_000,
    }
}

fn highest(limits: Limits) -> i64
    ensures { result ≡ highest limits }
{
    match limits {
        Limits::Width => 128,
        Limits::Shift => 127,
        Limits::Bound => 4_294_967_295,
        Limits::Turns => 1024,
    }
}

/// Whether a demand on widths is met; the others ask nothing of widths.
pub fn widths_meet(space: &Space, scope: &BitsScope, demand: &Demand, full: &Full) -> bool
    ensures { result ≡ widths_meet space.now scope.now (demand_of demand.now) full.now }
{
    match demand {
        Demand::InRange { limits, width } => {
            let number = width_value(width.get(), space, full, scope);
            lowest(*limits) <= number && number <= highest(*limits)
        }
        Demand::InSlice { high, low, of } => {
            let high = width_value(high.get(), space, full, scope);
            let low = width_value(low.get(), space, full, scope);
            0 <= low && low <= high && high < width_value(of.get(), space, full, scope)
        }
        Demand::Defined(_) => true,
        Demand::Present { csr: _, field: _ } => true,
    }
}
