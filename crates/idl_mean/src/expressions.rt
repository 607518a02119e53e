//! The values of expressions.

ghost use Rattle.std.specs.Prelude.{map, IfOk, IfSome};
ghost use Rattle.idl_spec.specs.Values.{flag, written_text, machine_mode};
ghost use Rattle.idl_spec.specs.Harts.{done};
ghost use Rattle.idl_spec.specs.Forms.{binary_reading, joined, addressed};
ghost use Rattle.idl_spec.specs.Mean.{mean_expr};
ghost use Rattle.idl_forms.specs.States.{as_value, scope_of, state_of, Ends, Gives, Finds};
ghost use Rattle.idl_forms.specs.Scenes.{setting_of, addressed_of};
ghost use Rattle.idl_forms.specs.Ready.{IsScene, IsSoundAt, IsPresentCsr, Keeps};
ghost use Rattle.idl_mean.specs.Flows.{choice_reading, bit_reading};

use crate::calls::{call, returned_value};
use crate::depth::{deeper, deeper_expression};
use idl_forms::fields::{Addressed, csr_at, csr_of_word, field_value, new_field, soft_read};
use idl_forms::harts::HartState;
use idl_forms::kinds::chosen;
use idl_forms::memory::{encoding, pc, read_memory, register};
use idl_forms::names::{implemented, implemented_version, member, word};
use idl_forms::operators::{
    bit, join, literal, number, repeat, resized, settled, signed, slice, unary, wide_left,
    with_right,
};
use idl_forms::scenes::Scene;
use idl_forms::values::{Local, Part, Scalar, Stop, Value, bits_in, flag_in, of_flag};
use idl_tree::{Binary, EnumKind, Expr};
use std::alloc::Global;
use udb_base::{Chars, Copied};

// A written text.
fn text(alloc: Global, text: &Chars) -> Part
    ensures { Finds as_value (done (written_text text.now)) result }
{
    Ok(Value::Written(text.copy(alloc)?))
}

// The mode in which bodies run.
fn machine_mode() -> Part
    ensures { Finds as_value (done machine_mode) result }
{
    Ok(Value::Scalar(Scalar::Member {
        kind: EnumKind::PrivilegeMode,
        number: 3,
    }))
}

// A flag as what a part gives.
fn flag(value: bool) -> Part
    ensures { Finds as_value (done (flag value)) result }
{
    Ok(of_flag(value))
}

/// The value of an expression, with the state that its evaluation leaves.
#[cycle(evaluation)]
pub fn evaluate(
    alloc: Global,
    scene: &Scene,
    scope: &[Local],
    state: &mut HartState,
    expr: &Expr,
    depth: u32,
) -> Part
    requires ready { IsScene scene.now }
    requires sound { IsSoundAt scene.now (state_of state.old) }
    ensures value { Gives (mean_expr (setting_of scene.now) expr.now (scope_of scope.now)
        (state_of state.old)) result (state_of state.new) }
    ensures kept { Keeps scene.now (state_of state.old) (state_of state.new) }
{
    let depth = deeper_expression(depth)?;
    match expr {
        Expr::Number(value) => number(*value),
        Expr::Sized {
            width,
            signed,
            value,
        } => literal(scene, width, *signed, *value),
        Expr::Text(written) => text(alloc, written),
        Expr::Flag(value) => flag(*value),
        Expr::Word(name) => word(alloc, scene, scope, name, state.word),
        Expr::Member { kind, name } => member(*kind, name),
        Expr::Unary { sign, of } => {
            unary(*sign, evaluate(alloc, scene, scope, state, of.get(), depth))
        }
        Expr::Binary { sign, left, right } => {
            binary(
                alloc,
                scene,
                scope,
                state,
                *sign,
                left.get(),
                right.get(),
                depth,
            )
        }
        Expr::WideLeft { left, by } => wide_left(
            scene,
            evaluate(alloc, scene, scope, state, left.get(), depth),
            by,
        ),
        Expr::Choice { test, yes, no } => choice(
            alloc,
            scene,
            scope,
            state,
            expr,
            test.get(),
            yes.get(),
            no.get(),
            depth,
        ),
        Expr::Join(parts) => join_parts(alloc, scene, scope, state, parts.as_slice(), depth),
        Expr::Repeat { times, of } => repeat(
            scene,
            evaluate(alloc, scene, scope, state, of.get(), depth),
            times,
        ),
        Expr::Index { of, at } => index(alloc, scene, scope, state, of.get(), at.get(), depth),
        Expr::Slice { of, high, low } => slice(
            scene,
            evaluate(alloc, scene, scope, state, of.get(), depth),
            high,
            low,
        ),
        Expr::Call { name, args } => returned_value(call(
            alloc,
            scene,
            scope,
            state,
            name,
            args.as_slice(),
            depth,
        )),
        Expr::Signed(of) => signed(evaluate(alloc, scene, scope, state, of.get(), depth)),
        Expr::Resize { width, of } => resized(
            scene,
            width,
            evaluate(alloc, scene, scope, state, of.get(), depth),
        ),
        Expr::Pc => pc(scene, state),
        Expr::Encoding => encoding(state),
        Expr::Register(at) => {
            let at = evaluate(alloc, scene, scope, state, at.get(), depth);
            register(scene, state, at)
        }
        Expr::Field { csr, field } => field_value(scene, state, csr, field),
        Expr::SoftRead(address) => {
            let one = addressed(alloc, scene, scope, state, address.get(), depth);
            soft_read(scene, state, one)
        }
        Expr::ReadMemory { bits, at } => {
            let at = evaluate(alloc, scene, scope, state, at.get(), depth);
            read_memory(scene, state, *bits, at)
        }
        Expr::NewField(field) => new_field(scene, field),
        Expr::Mode => machine_mode(),
        Expr::Implemented(name) => implemented(scene, name),
        Expr::ImplementedVersion { extension, text } => implemented_version(scene, extension, text),
    }
}

// The right operand counts where the left one leaves it open.
#[cycle(evaluation)]
fn binary(
    alloc: Global,
    scene: &Scene,
    scope: &[Local],
    state: &mut HartState,
    sign: Binary,
    left: &Expr,
    right: &Expr,
    depth: u32,
) -> Part
    requires ready { IsScene scene.now }
    requires sound { IsSoundAt scene.now (state_of state.old) }
    ensures value { Gives (binary_reading sign (mean_expr (setting_of scene.now) left.now)
        (mean_expr (setting_of scene.now) right.now) (scope_of scope.now) (state_of state.old))
        result (state_of state.new) }
    ensures kept { Keeps scene.now (state_of state.old) (state_of state.new) }
{
    let depth = deeper(depth)?;
    let first = evaluate(alloc, scene, scope, state, left, depth)?;
    if let Some(value) = settled(sign, &first)? {
        return flag(value);
    }
    with_right(
        sign,
        &first,
        evaluate(alloc, scene, scope, state, right, depth),
    )
}

// The taken side of a `? :`.
#[cycle(evaluation)]
fn choice(
    alloc: Global,
    scene: &Scene,
    scope: &[Local],
    state: &mut HartState,
    expr: &Expr,
    test: &Expr,
    yes: &Expr,
    no: &Expr,
    depth: u32,
) -> Part
    requires ready { IsScene scene.now }
    requires sound { IsSoundAt scene.now (state_of state.old) }
    ensures value { Gives (choice_reading (setting_of scene.now) expr.now
        (mean_expr (setting_of scene.now) test.now) (mean_expr (setting_of scene.now) yes.now)
        (mean_expr (setting_of scene.now) no.now) (scope_of scope.now) (state_of state.old))
        result (state_of state.new) }
    ensures kept { Keeps scene.now (state_of state.old) (state_of state.new) }
{
    let depth = deeper(depth)?;
    let taken = flag_in(evaluate(alloc, scene, scope, state, test, depth))?;
    let side = if taken { yes } else { no };
    let value = evaluate(alloc, scene, scope, state, side, depth);
    chosen(scene, scope, expr, value)
}

// Bits side by side, the first highest.
#[cycle(evaluation)]
fn join_parts(
    alloc: Global,
    scene: &Scene,
    scope: &[Local],
    state: &mut HartState,
    parts: &[Expr],
    depth: u32,
) -> Part
    requires ready { IsScene scene.now }
    requires sound { IsSoundAt scene.now (state_of state.old) }
    ensures value { Gives (joined (map (mean_expr (setting_of scene.now)) parts.now)
        (scope_of scope.now) (state_of state.old)) result (state_of state.new) }
    ensures kept { Keeps scene.now (state_of state.old) (state_of state.new) }
{
    let depth = deeper(depth)?;
    let mut all = Vec::new(alloc);
    for part in parts {
        let bits = bits_in(evaluate(alloc, scene, scope, state, part, depth))?;
        all.push(bits)?;
    }
    join(all.as_slice())
}

// One bit.
#[cycle(evaluation)]
fn index(
    alloc: Global,
    scene: &Scene,
    scope: &[Local],
    state: &mut HartState,
    of: &Expr,
    at: &Expr,
    depth: u32,
) -> Part
    requires ready { IsScene scene.now }
    requires sound { IsSoundAt scene.now (state_of state.old) }
    ensures value { Gives (bit_reading (mean_expr (setting_of scene.now) of.now)
        (mean_expr (setting_of scene.now) at.now) (scope_of scope.now) (state_of state.old))
        result (state_of state.new) }
    ensures kept { Keeps scene.now (state_of state.old) (state_of state.new) }
{
    let depth = deeper(depth)?;
    let of = bits_in(evaluate(alloc, scene, scope, state, of, depth))?;
    bit(of, evaluate(alloc, scene, scope, state, at, depth))
}

/// What stands in `CSR[..]` before `.sw_read` and `.sw_write`.
#[cycle(evaluation)]
pub fn addressed<'a>(
    alloc: Global,
    scene: &Scene<'a>,
    scope: &[Local],
    state: &mut HartState,
    address: &Expr,
    depth: u32,
) -> Result<Addressed<'a>, Stop>
    requires ready { IsScene scene.now }
    requires sound { IsSoundAt scene.now (state_of state.old) }
    ensures value { Ends addressed_of (addressed (setting_of scene.now) address.now
        (mean_expr (setting_of scene.now) address.now) (scope_of scope.now) (state_of state.old))
        result (state_of state.new) }
    ensures known { IfOk result (λ a. IfSome a.csr (λ c. IsPresentCsr scene.now c.now)) }
    ensures kept { Keeps scene.now (state_of state.old) (state_of state.new) }
{
    let depth = deeper(depth)?;
    if !scene.loud {
        return Err(Stop::Stuck);
    }
    if let Some(one) = csr_of_word(scene, scope, address)? {
        return Ok(one);
    }
    csr_at(scene, evaluate(alloc, scene, scope, state, address, depth))
}
