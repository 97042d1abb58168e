ghost use Rattle.std.specs.Prelude.{◌^◌, MatchOption};
ghost use Rattle.call_frame.specs.Named.{IsNamed, NoneNamed};

use aen_base::FnId;
use sums_ast::Program;

/// The first function with this name; None exactly where no function that has a number, which is
/// below 2^32, has the name.
pub fn function_named(program: &Program, name: &str) -> Option<FnId>
    ensures { MatchOption result (NoneNamed program.now.functions name.now (2 ^ 32)) (λ f. IsNamed program.now.functions name.now f.0) }
{
    let functions = program.functions.as_slice();
    let mut number = 0u32;
    for function in functions {
        if function.name.is(name) {
            return Some(FnId(number));
        }
        number = number.checked_add(1)?;
    }
    None
}

#[cfg(test)]
mod tests {
    use super::*;
    use aen_base::{List, Name, NoMem, Num, Span};
    use std::alloc::Global;
    use sums_ast::{Block, Expr, Function};

    fn function(alloc: Global, name: &str, value: Num) -> Result<Function, NoMem> {
        let span = Span { lo: 0, hi: 1 };
        Ok(Function {
            name: Name::from_str(alloc, name)?,
            span,
            parameters: 0,
            variables: List::new(alloc),
            body: Block::with_value(alloc, span, List::new(alloc), Expr::number(span, value))?,
        })
    }

    #[test]
    fn finds_functions(rt: HostRuntime) -> Result<(), NoMem> {
        let Some(zero) = aen_base::num(aen_base::IntTy::U32, false, 0) else {
            return Err(NoMem);
        };
        let mut functions = List::new(rt.alloc());
        functions.push(function(rt.alloc(), "f", zero)?)?;
        functions.push(function(rt.alloc(), "g", zero)?)?;
        let program = Program { functions };
        assert!(rt; function_named(&program, "g") == Some(FnId(1)));
        assert!(rt; function_named(&program, "h") == None);
        Ok(())
    }
}
