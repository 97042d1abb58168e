//! What is known where a part of a body stands.

ghost use Rattle.std.specs.Prelude.{◌≡◌, length, IfOk};
ghost use Rattle.name_uses.specs.Scopes as spec;

use crate::scope::Scope;
use aen_base::{List, NoMem, at};
use name_tables::number;
use rust_ast::{Ident, Variable};
use std::alloc::Global;

/// What is known where a part of a body stands.
pub struct State {
    /// The names in scope with their variables, the newest last.
    pub(crate) scope: Scope,
    /// The function's variables so far, by number.
    pub(crate) variables: List<Variable>,
    /// How many loops there are so far.
    pub(crate) loops: u32,
}

/// By hand, as a derived `drop` is written out at each `?`.
impl Drop for State {
    fn drop(self) {
        let State {
            scope: _,
            variables: _,
            loops: _,
        } = self;
    }
}

impl State {
    /// The function's variables.
    pub(crate) fn into_variables(self) -> List<Variable>
        ensures { result ≡ self.variables }
    {
        let State {
            scope: _,
            variables,
            loops: _,
        } = self;
        variables
    }

    /// One variable more, which is not in scope yet.
    pub(crate) fn with_variable(
        self,
        alloc: Global,
        mutable: bool,
        late: bool,
        name: &Ident,
    ) -> Result<State, NoMem>
        ensures { IfOk result (λ st. st ≡ spec.with_variable mutable late name.now self) }
    {
        let State {
            scope,
            mut variables,
            loops,
        } = self;
        variables.push(Variable {
            name: name.name.try_clone(alloc)?,
            span: name.span,
            mutable,
            late,
        })?;
        Ok(State {
            scope,
            variables,
            loops,
        })
    }

    /// The variables from one number to before another come into scope.
    pub(crate) fn enter(self, alloc: Global, from: usize, to: usize) -> Result<State, NoMem>
        ensures { IfOk result (λ st. st ≡ spec.enter from to self) }
    {
        let State {
            scope,
            variables,
            loops,
        } = self;
        let scope = entered(alloc, scope, variables.as_slice(), from, to)?;
        Ok(State {
            scope,
            variables,
            loops,
        })
    }

    /// What came into scope since it had this length leaves it.
    pub(crate) fn leave(self, count: usize) -> Result<State, NoMem>
        ensures { IfOk result (λ st. st ≡ spec.leave count self) }
    {
        let State {
            scope,
            variables,
            loops,
        } = self;
        let scope = scope.first(count)?;
        Ok(State {
            scope,
            variables,
            loops,
        })
    }

    /// One loop more.
    pub(crate) fn with_loop(self) -> Result<State, NoMem>
        ensures { IfOk result (λ st. st ≡ spec.with_loop self) }
    {
        let State {
            scope,
            variables,
            loops,
        } = self;
        match loops.checked_add(1) {
            Some(loops) => Ok(State {
                scope,
                variables,
                loops,
            }),
            None => Err(NoMem),
        }
    }
}

/// The scope with the variables from one number to before another.
fn entered(
    alloc: Global,
    scope: Scope,
    variables: &[Variable],
    from: usize,
    to: usize,
) -> Result<Scope, NoMem>
    ensures { IfOk result (λ s. s ≡ spec.with_variables from to variables.now scope) }
{
    let mut scope = scope;
    let mut place = from;
    while place < to {
        let Some(variable) = at(variables, place) else {
            return Ok(scope);
        };
        let variable_number = number(place)?;
        let more = scope.with(alloc, &variable.name, variable_number)?;
        scope = more;
        place += 1;
    }
    Ok(scope)
}
