ghost use Rattle.std.specs.Prelude.{◌≡◌, ◌+◌, ◌<◌, ◌^◌, [], length, IfOk};
ghost use Rattle.translate.specs.Emit as spec;
ghost use Rattle.translate.specs.Adds as adds;

use crate::atom::Atom;
use aen_base::{List, NoMem};
use pure_ast::{Code, Comp};
use std::alloc::Global;

/// The computations of a function so far, in order. Each gives a variable its value, and the
/// variables are numbered in that order.
#[derive(Drop)]
pub struct Emitter {
    /// The next variable.
    pub next: u32,
    /// The computations.
    pub comps: List<Comp>,
}

impl Emitter {
    /// No computation yet; the variables before `next` are taken.
    pub fn new(alloc: Global, next: u32) -> Emitter
        ensures { (result.next ≡ next) × (result.comps ≡ []) }
    {
        Emitter {
            next,
            comps: List::new(alloc),
        }
    }

    /// Adds a computation and gives the variable that takes its value. The only error is want of
    /// memory, also where the next number would pass the greatest u32.
    pub fn compute(&mut self, comp: Comp) -> Result<Atom, NoMem>
        ensures { IfOk result (λ a. adds.Adds self.old self.new (spec.computed self.old.next [] comp) a) }
    {
        let variable = self.next;
        let Some(next) = variable.checked_add(1) else {
            return Err(NoMem);
        };
        self.comps.push(comp)?;
        self.next = next;
        Ok(Atom::Variable(variable))
    }

    /// The code of all computations, which gives the variables from `first` on their values and
    /// ends with this atom. The only error is want of memory.
    pub fn finish(self, alloc: Global, first: u32, atom: Atom) -> Result<Code, NoMem>
        requires { self.next ≡ first + length self.comps }
        ensures code { IfOk result (λ code. code ≡ spec.chained first self.comps atom) }
        ensures small { IfOk result (λ code. self.next < 2 ^ 32) }
    {
        let Emitter {
            mut next,
            mut comps,
        } = self;
        let mut code = Code::last(Comp::Ok(atom.term()));
        while let Some(comp) = comps.pop() {
            next -= 1;
            code = Code::bind(alloc, next, comp, code)?;
        }
        Ok(code)
    }
}
