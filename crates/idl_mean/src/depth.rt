//! How deep forms may stand in one another while they run.

ghost use Rattle.std.specs.Prelude.{◌≡◌, ◌<◌, IfOk, IfErr};
ghost use Rattle.idl_forms.specs.declared.values.Stop.TheVariants.{Memory};

use idl_forms::values::Stop;

/// How many other forms an open expression counts for: it holds as much of the stack.
const EXPRESSION: u32 = 4;

/// One form deeper. Each open form holds a part of the stack; where no more may be open, there is
/// no room for this one.
pub fn deeper(depth: u32) -> Result<u32, Stop>
    ensures less { IfOk result (λ left. left < depth) }
    ensures refusal { IfErr result (λ stop. stop ≡ Memory) }
{
    if depth == 0 {
        return Err(Stop::Memory);
    }
    Ok(depth - 1)
}

/// One expression deeper.
pub fn deeper_expression(depth: u32) -> Result<u32, Stop>
    ensures less { IfOk result (λ left. left < depth) }
    ensures refusal { IfErr result (λ stop. stop ≡ Memory) }
{
    if depth < EXPRESSION {
        return Err(Stop::Memory);
    }
    Ok(depth - EXPRESSION)
}
