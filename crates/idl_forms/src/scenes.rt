//! What stands round a body as it runs, and the widths there.

ghost use Rattle.std.specs.Prelude.{◌≡◌, ◌≤◌, ◌<◌, [], Option, None, IfOk, option_map, true, false};
ghost use Rattle.idl_width.specs.Numbers.{IsClipped};
ghost use Rattle.idl_spec.specs.Values.{within};
ghost use Rattle.idl_spec.specs.Settings.{number_of_width};
ghost use Rattle.idl_spec.specs.Programs.{with_functions, bare, quiet_setting};
ghost use Rattle.idl_forms.specs.States.{or_stop};
ghost use Rattle.idl_forms.specs.Scenes.{setting_of, new_number, writing};
ghost use Rattle.idl_forms.specs.Ready.{IsScene};
ghost use Rattle.idl_forms.specs.Steps.{slice_ends};

use crate::values::Stop;
use idl_tree::{Function, Program, Variable, Width};
use idl_width::{BitsScope, width_value};
use udb_base::{Full, Name, Space};

/// The new number of a CSR, which a body of `sw_write` sees.
#[derive(Clone, Copy)]
pub struct NewNumber<'a> {
    pub csr: &'a Name,
    pub number: u64,
}

/// What stands round a body: the full configuration, the program, how many bits a register has, the
/// variables of the encoding with what `$bits` can name, what it can name where no variable stands,
/// the functions declared before, whether `sw_read` and `sw_write` mean something, and in a body of
/// `sw_write` the new number of the CSR.
#[derive(Clone, Copy)]
pub struct Scene<'a> {
    pub space: &'a Space,
    pub full: &'a Full,
    pub program: &'a Program,
    pub registers: u8,
    pub variables: &'a [Variable],
    pub widths: &'a BitsScope,
    pub bare_widths: &'a BitsScope,
    pub functions: &'a [Function],
    pub loud: bool,
    pub written: Option<NewNumber<'a>>,
}

impl<'a> Scene<'a> {
    /// The scene of a function's body: the functions before it, and no variables.
    pub fn under(&self, functions: &'a [Function]) -> Scene<'a>
        requires ready { IsScene self.now }
        ensures ready { IsScene result }
        ensures space { result.space.now ≡ self.now.space.now }
        ensures full { result.full.now ≡ self.now.full.now }
        ensures program { result.program.now ≡ self.now.program.now }
        ensures functions { result.functions.now ≡ functions.now }
        ensures loud { result.loud ≡ self.now.loud }
        ensures variables { result.variables.now ≡ [] }
        ensures written { result.written ≡ None }
    {
        Scene {
            variables: &self.variables[..0],
            widths: self.bare_widths,
            functions,
            written: None,
            ..*self
        }
    }

    /// The scene of a field's body: all functions, with `sw_read` and `sw_write` stuck.
    pub fn quiet(&self, written: Option<NewNumber<'a>>) -> Scene<'a>
        requires ready { IsScene self.now }
        ensures ready { IsScene result }
        ensures space { result.space.now ≡ self.now.space.now }
        ensures full { result.full.now ≡ self.now.full.now }
        ensures program { result.program.now ≡ self.now.program.now }
        ensures functions { result.functions.now ≡ self.now.program.now.functions }
        ensures loud { result.loud ≡ false }
        ensures variables { result.variables.now ≡ [] }
        ensures written { result.written ≡ written.entry }
    {
        Scene {
            variables: &self.variables[..0],
            widths: self.bare_widths,
            functions: self.program.functions.as_slice(),
            loud: false,
            written,
            ..*self
        }
    }
}

/// The whole number of a width.
pub fn width_number(scene: &Scene, width: &Width) -> i64
    requires ready { IsScene scene.now }
    ensures value { result ≡ number_of_width (setting_of scene.now) width.now }
    ensures small { IsClipped result }
{
    width_value(width, scene.space, scene.full, scene.widths)
}

/// The number of a width that has to lie in a range.
pub fn width_in(scene: &Scene, low: u32, high: u32, width: &Width) -> Result<u32, Stop>
    requires ready { IsScene scene.now }
    ensures value { result ≡ or_stop
        (within low high (number_of_width (setting_of scene.now) width.now)) }
    ensures bounds { IfOk result (λ n. (low ≤ n) × (n ≤ high)) }
{
    let number = width_number(scene, width);
    if number < i64::from(low) || i64::from(high) < number {
        return Err(Stop::Stuck);
    }
    Ok(number as u32)
}

/// A width of 1 to 128 bits.
pub fn size_in(scene: &Scene, width: &Width) -> Result<u8, Stop>
    requires ready { IsScene scene.now }
    ensures value { result ≡ or_stop
        (within 1 128 (number_of_width (setting_of scene.now) width.now)) }
    ensures bounds { IfOk result (λ n. (1 ≤ n) × (n ≤ 128)) }
{
    let size = width_in(scene, 1, 128, width)?;
    Ok(size as u8)
}

/// The two places of a slice of so many bits, the higher first.
pub fn slice_places(scene: &Scene, width: u8, high: &Width, low: &Width) -> Result<(u8, u8), Stop>
    requires ready { IsScene scene.now }
    requires positive { 1 ≤ width }
    requires limit { width ≤ 128 }
    ensures value { result ≡ or_stop (slice_ends (setting_of scene.now) width high.now low.now) }
    ensures bounds { IfOk result (λ p. (p.1 ≤ p.0) × (p.0 < width)) }
{
    let high = width_in(scene, 0, u32::from(width - 1), high)?;
    let low = width_in(scene, 0, high, low)?;
    Ok((high as u8, low as u8))
}
