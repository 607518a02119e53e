//! Calls of functions.

ghost use Rattle.std.specs.Prelude.{map};
ghost use Rattle.idl_spec.specs.Forms as forms;
ghost use Rattle.idl_spec.specs.Mean.{mean_expr};
ghost use Rattle.idl_spec.specs.Programs as programs;
ghost use Rattle.idl_forms.specs.States.{as_value, scope_of, state_of, value_if_any, Ends};
ghost use Rattle.idl_forms.specs.Scenes.{setting_of};
ghost use Rattle.idl_forms.specs.Ready.{IsScene, IsSoundAt, Keeps};
ghost use Rattle.idl_mean.specs.Flows.{values_of, ReturnsValue};

use crate::depth::deeper;
use crate::expressions::evaluate;
use crate::statements::execute_all;
use idl_forms::harts::HartState;
use idl_forms::names::function_place;
use idl_forms::results::{arguments, result};
use idl_forms::scenes::Scene;
use idl_forms::values::{Local, Part, Stop, Value, required};
use idl_tree::{Expr, Function, Name};
use std::alloc::Global;

/// The value that a call has to return.
pub fn returned_value(returned: Result<Option<Value>, Stop>) -> Part
    ensures { ReturnsValue returned result }
{
    required(returned?)
}

// The values of arguments, from left to right.
#[cycle(evaluation)]
fn values(
    alloc: Global,
    scene: &Scene,
    scope: &[Local],
    state: &mut HartState,
    args: &[Expr],
    depth: u32,
) -> Result<Vec<Value>, Stop>
    requires ready { IsScene scene.now }
    requires sound { IsSoundAt scene.now (state_of state.old) }
    ensures value { Ends (λ v. values_of v.items) (forms.values_in_turn
        (map (mean_expr (setting_of scene.now)) args.now) (scope_of scope.now) (state_of state.old))
        result (state_of state.new) }
    ensures kept { Keeps scene.now (state_of state.old) (state_of state.new) }
{
    let depth = deeper(depth)?;
    let mut all = Vec::new(alloc);
    for arg in args {
        let value = evaluate(alloc, scene, scope, state, arg, depth)?;
        all.push(value)?;
    }
    Ok(all)
}

/// What a call of a function returns.
#[cycle(evaluation)]
pub fn call(
    alloc: Global,
    scene: &Scene,
    scope: &[Local],
    state: &mut HartState,
    name: &Name,
    args: &[Expr],
    depth: u32,
) -> Result<Option<Value>, Stop>
    requires ready { IsScene scene.now }
    requires sound { IsSoundAt scene.now (state_of state.old) }
    ensures value { Ends value_if_any (forms.call (setting_of scene.now) name.now
        (map (mean_expr (setting_of scene.now)) args.now) (scope_of scope.now) (state_of state.old))
        result (state_of state.new) }
    ensures kept { Keeps scene.now (state_of state.old) (state_of state.new) }
{
    let depth = deeper(depth)?;
    let values = values(alloc, scene, scope, state, args, depth)?;
    let place = required(function_place(scene.functions, name))?;
    let below = scene.under(&scene.functions[..place]);
    run_function(
        alloc,
        &below,
        state,
        &scene.functions[place],
        values.as_slice(),
        depth,
    )
}

// A function with the values of its arguments.
#[cycle(evaluation)]
fn run_function(
    alloc: Global,
    scene: &Scene,
    state: &mut HartState,
    function: &Function,
    values: &[Value],
    depth: u32,
) -> Result<Option<Value>, Stop>
    requires ready { IsScene scene.now }
    requires sound { IsSoundAt scene.now (state_of state.old) }
    ensures value { Ends value_if_any (programs.run_function (setting_of scene.now) function.now
        function.now.body.statements (map as_value values.now) (state_of state.old))
        result (state_of state.new) }
    ensures kept { Keeps scene.now (state_of state.old) (state_of state.new) }
{
    let depth = deeper(depth)?;
    let mut scope = arguments(alloc, scene, function.arguments.as_slice(), values)?;
    let stmts = function.body.statements.as_slice();
    let returned = execute_all(alloc, scene, &mut scope, state, stmts, depth)?;
    result(scene, &function.result, returned)
}
