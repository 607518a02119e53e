//! What statements do.

ghost use Rattle.std.specs.Prelude.{◌≡◌, ◌-◌, Option, map};
ghost use Rattle.idl_tree.specs.declared.statements.Stmt.{Stmt};
ghost use Rattle.idl_spec.specs.Mean as meant;
ghost use Rattle.idl_spec.specs.Mean.{mean_expr, mean_stmt, mean_stmts};
ghost use Rattle.idl_forms.specs.States.{scope_of, state_of, going_on, Ends};
ghost use Rattle.idl_forms.specs.Scenes.{setting_of};
ghost use Rattle.idl_forms.specs.Ready.{IsScene, IsSoundAt, Keeps};
ghost use Rattle.idl_mean.specs.Flows.{flow_of, nothing_returned, value_returned, without_value, declared_change, branch_change, raise_change, store_change, soft_write_change, one_turn};

use crate::calls::call;
use crate::depth::deeper;
use crate::expressions::{addressed, evaluate};
use crate::writes::write_csr;
use idl_bits::Bits;
use idl_forms::assignments::{set_bit, set_field, set_slice, set_word};
use idl_forms::fields::{named_field, writable};
use idl_forms::harts::HartState;
use idl_forms::kinds::in_shape;
use idl_forms::memory::{address_of, jump, raise, set_register, write_memory};
use idl_forms::names::declare;
use idl_forms::scenes::{Scene, width_in};
use idl_forms::values::{Local, Part, Scalar, Stop, Value, bits_in, flag_in};
use idl_tree::{Expr, Name, Shape, Stmt, Stmts, Target, Width};
use std::alloc::Global;

// A statement that goes on returns nothing.
fn nothing_returned(done: Result<(), Stop>) -> Result<Option<Value>, Stop>
    ensures { result ≡ nothing_returned done }
{
    match done {
        Ok(()) => Ok(None),
        Err(stop) => Err(stop),
    }
}

// What a `return` gives.
fn returned(value: Part) -> Result<Option<Value>, Stop>
    ensures { result ≡ value_returned value }
{
    match value {
        Ok(value) => Ok(Some(value)),
        Err(stop) => Err(stop),
    }
}

// A call as a statement: its value is given up.
fn without_value(value: Result<Option<Value>, Stop>) -> Result<Option<Value>, Stop>
    ensures { result ≡ without_value value }
{
    match value {
        Ok(_) => Ok(None),
        Err(stop) => Err(stop),
    }
}

/// What a statement returns, with the scope and the state that it leaves.
#[cycle(evaluation)]
pub fn execute(
    alloc: Global,
    scene: &Scene,
    scope: &mut Vec<Local>,
    state: &mut HartState,
    stmt: &Stmt,
    depth: u32,
) -> Result<Option<Value>, Stop>
    requires ready { IsScene scene.now }
    requires sound { IsSoundAt scene.now (state_of state.old) }
    ensures value { Ends (flow_of scope.new.items) (mean_stmt (setting_of scene.now) stmt.now
        (scope_of scope.old.items) (state_of state.old)) result (state_of state.new) }
    ensures kept { Keeps scene.now (state_of state.old) (state_of state.new) }
{
    let depth = deeper(depth)?;
    match stmt {
        Stmt::Declare { shape, name, value } => nothing_returned(declare_local(
            alloc, scene, scope, state, shape, name, value, depth,
        )),
        Stmt::Assign { target, value } => {
            nothing_returned(assign(alloc, scene, scope, state, target, value, depth))
        }
        Stmt::Block(stmts) => block(alloc, scene, scope, state, stmts.as_slice(), depth),
        Stmt::Return(value) => {
            returned(evaluate(alloc, scene, scope.as_slice(), state, value, depth))
        }
        Stmt::If { test, yes, no } => {
            branch(alloc, scene, scope, state, test, yes.as_slice(), no, depth)
        }
        Stmt::For {
            name,
            from,
            to,
            block,
        } => for_each(
            alloc,
            scene,
            scope,
            state,
            name,
            from,
            to,
            block.as_slice(),
            depth,
        ),
        Stmt::Jump(to) => {
            let to = evaluate(alloc, scene, scope.as_slice(), state, to, depth);
            nothing_returned(jump(scene, state, to))
        }
        Stmt::Raise { code, tval } => nothing_returned(raise_exception(
            alloc,
            scene,
            scope.as_slice(),
            state,
            code,
            tval,
            depth,
        )),
        Stmt::WriteMemory { bits, at, value } => nothing_returned(store(
            alloc,
            scene,
            scope.as_slice(),
            state,
            *bits,
            at,
            value,
            depth,
        )),
        Stmt::SoftWrite { address, value } => nothing_returned(soft_write(
            alloc,
            scene,
            scope.as_slice(),
            state,
            address,
            value,
            depth,
        )),
        Stmt::Call { name, args } => without_value(call(
            alloc,
            scene,
            scope.as_slice(),
            state,
            name,
            args.as_slice(),
            depth,
        )),
    }
}

/// What statements return, one after the other, with the scope and the state that they leave.
#[cycle(evaluation)]
pub fn execute_all(
    alloc: Global,
    scene: &Scene,
    scope: &mut Vec<Local>,
    state: &mut HartState,
    stmts: &[Stmt],
    depth: u32,
) -> Result<Option<Value>, Stop>
    requires ready { IsScene scene.now }
    requires sound { IsSoundAt scene.now (state_of state.old) }
    ensures value { Ends (flow_of scope.new.items) (mean_stmts (setting_of scene.now) stmts.now
        (scope_of scope.old.items) (state_of state.old)) result (state_of state.new) }
    ensures kept { Keeps scene.now (state_of state.old) (state_of state.new) }
{
    let depth = deeper(depth)?;
    for stmt in stmts {
        if let Some(value) = execute(alloc, scene, scope, state, stmt, depth)? {
            return Ok(Some(value));
        }
    }
    Ok(None)
}

// A block: what is declared inside is gone outside.
#[cycle(evaluation)]
fn block(
    alloc: Global,
    scene: &Scene,
    scope: &mut Vec<Local>,
    state: &mut HartState,
    stmts: &[Stmt],
    depth: u32,
) -> Result<Option<Value>, Stop>
    requires ready { IsScene scene.now }
    requires sound { IsSoundAt scene.now (state_of state.old) }
    ensures value { Ends (flow_of scope.new.items) (meant.block
        (map (mean_stmt (setting_of scene.now)) stmts.now) (scope_of scope.old.items)
        (state_of state.old)) result (state_of state.new) }
    ensures kept { Keeps scene.now (state_of state.old) (state_of state.new) }
{
    let depth = deeper(depth)?;
    let count = scope.len();
    let returned = execute_all(alloc, scene, scope, state, stmts, depth)?;
    scope.truncate(count);
    Ok(returned)
}

// One turn of a loop: the block behind its counter.
#[cycle(evaluation)]
fn turn(
    alloc: Global,
    scene: &Scene,
    scope: &mut Vec<Local>,
    state: &mut HartState,
    name: &Name,
    counter: u32,
    stmts: &[Stmt],
    depth: u32,
) -> Result<Option<Value>, Stop>
    requires ready { IsScene scene.now }
    requires sound { IsSoundAt scene.now (state_of state.old) }
    ensures value { Ends (flow_of scope.new.items) (one_turn name.now
        (map (mean_stmt (setting_of scene.now)) stmts.now) counter (scope_of scope.old.items)
        (state_of state.old)) result (state_of state.new) }
    ensures kept { Keeps scene.now (state_of state.old) (state_of state.new) }
{
    let depth = deeper(depth)?;
    let count = scope.len();
    let value = Scalar::Bits(Bits::new(32, false, u128::from(counter)));
    declare(alloc, scope, name, value)?;
    let returned = execute_all(alloc, scene, scope, state, stmts, depth)?;
    scope.truncate(count);
    Ok(returned)
}

// A loop: a turn for each counter from the first bound, below the second.
#[cycle(evaluation)]
fn turns(
    alloc: Global,
    scene: &Scene,
    scope: &mut Vec<Local>,
    state: &mut HartState,
    name: &Name,
    low: u32,
    high: u32,
    stmts: &[Stmt],
    depth: u32,
) -> Result<Option<Value>, Stop>
    requires ready { IsScene scene.now }
    requires sound { IsSoundAt scene.now (state_of state.old) }
    ensures value { Ends (flow_of scope.new.items) (meant.turns name.now
        (map (mean_stmt (setting_of scene.now)) stmts.now) (high - low) low
        (scope_of scope.old.items) (state_of state.old)) result (state_of state.new) }
    ensures kept { Keeps scene.now (state_of state.old) (state_of state.new) }
{
    let depth = deeper(depth)?;
    for counter in low..high {
        if let Some(value) = turn(alloc, scene, scope, state, name, counter, stmts, depth)? {
            return Ok(Some(value));
        }
    }
    Ok(None)
}

// The block that a test takes.
#[cycle(evaluation)]
fn branch(
    alloc: Global,
    scene: &Scene,
    scope: &mut Vec<Local>,
    state: &mut HartState,
    test: &Expr,
    yes: &[Stmt],
    no: &Option<Stmts>,
    depth: u32,
) -> Result<Option<Value>, Stop>
    requires ready { IsScene scene.now }
    requires sound { IsSoundAt scene.now (state_of state.old) }
    ensures value { Ends (flow_of scope.new.items) (branch_change (setting_of scene.now) test.now
        yes.now no.now (scope_of scope.old.items) (state_of state.old))
        result (state_of state.new) }
    ensures kept { Keeps scene.now (state_of state.old) (state_of state.new) }
{
    let depth = deeper(depth)?;
    let taken = flag_in(evaluate(alloc, scene, scope.as_slice(), state, test, depth))?;
    if taken {
        return block(alloc, scene, scope, state, yes, depth);
    }
    match no {
        Some(no) => block(alloc, scene, scope, state, no.as_slice(), depth),
        None => Ok(None),
    }
}

// A loop between two bounds.
#[cycle(evaluation)]
fn for_each(
    alloc: Global,
    scene: &Scene,
    scope: &mut Vec<Local>,
    state: &mut HartState,
    name: &Name,
    from: &Width,
    to: &Width,
    stmts: &[Stmt],
    depth: u32,
) -> Result<Option<Value>, Stop>
    requires ready { IsScene scene.now }
    requires sound { IsSoundAt scene.now (state_of state.old) }
    ensures value { Ends (flow_of scope.new.items) (meant.loop (setting_of scene.now) name.now
        from.now to.now (map (mean_stmt (setting_of scene.now)) stmts.now)
        (scope_of scope.old.items) (state_of state.old)) result (state_of state.new) }
    ensures kept { Keeps scene.now (state_of state.old) (state_of state.new) }
{
    let depth = deeper(depth)?;
    let low = width_in(scene, 0, u32::MAX, from)?;
    let high = width_in(scene, 0, u32::MAX, to)?;
    turns(alloc, scene, scope, state, name, low, high, stmts, depth)
}

// A declaration.
#[cycle(evaluation)]
fn declare_local(
    alloc: Global,
    scene: &Scene,
    scope: &mut Vec<Local>,
    state: &mut HartState,
    shape: &Shape,
    name: &Name,
    value: &Expr,
    depth: u32,
) -> Result<(), Stop>
    requires ready { IsScene scene.now }
    requires sound { IsSoundAt scene.now (state_of state.old) }
    ensures value { Ends (going_on scope.new.items) (declared_change (setting_of scene.now)
        shape.now name.now value.now (scope_of scope.old.items) (state_of state.old))
        result (state_of state.new) }
    ensures kept { Keeps scene.now (state_of state.old) (state_of state.new) }
{
    let depth = deeper(depth)?;
    let value = evaluate(alloc, scene, scope.as_slice(), state, value, depth);
    let value = in_shape(scene, shape, value)?;
    declare(alloc, scope, name, value)?;
    Ok(())
}

// An assignment: the index of a target before the assigned value.
#[cycle(evaluation)]
fn assign(
    alloc: Global,
    scene: &Scene,
    scope: &mut Vec<Local>,
    state: &mut HartState,
    target: &Target,
    value: &Expr,
    depth: u32,
) -> Result<(), Stop>
    requires ready { IsScene scene.now }
    requires sound { IsSoundAt scene.now (state_of state.old) }
    ensures value { Ends (going_on scope.new.items) (meant.assign (setting_of scene.now)
        target.now value.now (scope_of scope.old.items) (state_of state.old))
        result (state_of state.new) }
    ensures kept { Keeps scene.now (state_of state.old) (state_of state.new) }
{
    let depth = deeper(depth)?;
    match target {
        Target::Word(name) => {
            let value = evaluate(alloc, scene, scope.as_slice(), state, value, depth);
            set_word(scope.as_mut_slice(), name, value)
        }
        Target::Bit { name, at } => {
            let at = bits_in(evaluate(alloc, scene, scope.as_slice(), state, at, depth))?;
            let value = evaluate(alloc, scene, scope.as_slice(), state, value, depth);
            set_bit(scope.as_mut_slice(), name, at, value)
        }
        Target::Slice { name, high, low } => {
            let value = evaluate(alloc, scene, scope.as_slice(), state, value, depth);
            set_slice(scene, scope.as_mut_slice(), name, high, low, value)
        }
        Target::Register(at) => {
            let at = bits_in(evaluate(alloc, scene, scope.as_slice(), state, at, depth))?;
            let value = evaluate(alloc, scene, scope.as_slice(), state, value, depth);
            set_register(scene, state, at, value)
        }
        Target::Field { csr, field } => {
            let placed = named_field(scene, csr, field)?;
            let value = evaluate(alloc, scene, scope.as_slice(), state, value, depth);
            set_field(scene, state, csr, field, placed, value)
        }
    }
}

// An exception: its code before its value.
#[cycle(evaluation)]
fn raise_exception(
    alloc: Global,
    scene: &Scene,
    scope: &[Local],
    state: &mut HartState,
    code: &Expr,
    tval: &Expr,
    depth: u32,
) -> Result<(), Stop>
    requires ready { IsScene scene.now }
    requires sound { IsSoundAt scene.now (state_of state.old) }
    ensures value { Ends (going_on scope.now) (raise_change (setting_of scene.now) code.now
        tval.now (scope_of scope.now) (state_of state.old)) result (state_of state.new) }
    ensures kept { Keeps scene.now (state_of state.old) (state_of state.new) }
{
    let depth = deeper(depth)?;
    let code = evaluate(alloc, scene, scope, state, code, depth)?;
    let tval = evaluate(alloc, scene, scope, state, tval, depth);
    raise(scene, &code, tval)
}

// A write to the memory: the address before the value.
#[cycle(evaluation)]
fn store(
    alloc: Global,
    scene: &Scene,
    scope: &[Local],
    state: &mut HartState,
    bits: u8,
    at: &Expr,
    value: &Expr,
    depth: u32,
) -> Result<(), Stop>
    requires ready { IsScene scene.now }
    requires sound { IsSoundAt scene.now (state_of state.old) }
    ensures value { Ends (going_on scope.now) (store_change (setting_of scene.now) bits at.now
        value.now (scope_of scope.now) (state_of state.old)) result (state_of state.new) }
    ensures kept { Keeps scene.now (state_of state.old) (state_of state.new) }
{
    let depth = deeper(depth)?;
    let at = bits_in(evaluate(alloc, scene, scope, state, at, depth))?;
    let value = evaluate(alloc, scene, scope, state, value, depth);
    write_memory(scene, state, bits, at, value)
}

// What software writes to a CSR: the address before the value.
#[cycle(evaluation)]
fn soft_write(
    alloc: Global,
    scene: &Scene,
    scope: &[Local],
    state: &mut HartState,
    address: &Expr,
    value: &Expr,
    depth: u32,
) -> Result<(), Stop>
    requires ready { IsScene scene.now }
    requires sound { IsSoundAt scene.now (state_of state.old) }
    ensures value { Ends (going_on scope.now) (soft_write_change (setting_of scene.now)
        address.now value.now (scope_of scope.now) (state_of state.old))
        result (state_of state.new) }
    ensures kept { Keeps scene.now (state_of state.old) (state_of state.new) }
{
    let depth = deeper(depth)?;
    if !scene.loud {
        return Err(Stop::Stuck);
    }
    let one = addressed(alloc, scene, scope, state, address, depth)?;
    let value = bits_in(evaluate(alloc, scene, scope, state, value, depth))?;
    let csr = writable(state, one)?;
    write_csr(alloc, scene, state, csr, address_of(scene, value), depth)
}
