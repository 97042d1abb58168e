//! What is called.
ghost use Rattle.std.specs.Prelude.{◌≡◌, IfOk};
ghost use Rattle.core_ty.specs.Types as t;
ghost use Rattle.rust_ast.specs.Resolved as e;
ghost use Rattle.type_calls.specs.Called.{as_callee, field_types};
ghost use Rattle.type_rules.specs.Callees as spec;

use aen_base::{List, Name, NoMem, TypeId, at};
use core_ty::{Sig, Ty, TyNode, builtin_sig, copy_tys};
use rust_ast::resolved;
use rust_ast::resolved::CalleeNode;
use std::alloc::Global;
use type_rules::Scope;
use type_values::fields::{fields_of, parameters_of};

/// What is called.
#[derive(Drop)]
pub struct Callee {
    /// How many type parameters it has.
    pub types: usize,
    /// The types of its parameters.
    pub params: List<Ty>,
    /// The type of its result.
    pub result: Ty,
}

/// A function with this signature. The only error is want of memory, here and below.
fn of_sig(alloc: Global, sig: &Sig) -> Result<Callee, NoMem>
    ensures { IfOk result (λ g. as_callee g ≡ spec.of_sig sig.now) }
{
    Ok(Callee {
        types: sig.type_params as usize,
        params: copy_tys(alloc, sig.params.as_slice())?,
        result: sig.result.try_clone(alloc)?,
    })
}

/// The types of fields.
fn types_of(alloc: Global, fields: &[(Name, Ty)]) -> Result<List<Ty>, NoMem>
    ensures { IfOk result (λ ts. ts ≡ field_types fields.now) }
{
    let mut all = List::new(alloc);
    for i in 0..fields.len() {
        all.push(fields[i].1.try_clone(alloc)?)?;
    }
    Ok(all)
}

/// So many type parameters in order. 2 ^ 32 parameters have no room in memory.
#[tactic(auto, using(crate::proofs::Parameters::in_order, crate::proofs::Parameters::one_more))]
fn parameters(alloc: Global, count: usize) -> Result<List<Ty>, NoMem>
    ensures { IfOk result (λ ts. t.tys ts ≡ spec.parameters_from count 0) }
{
    let mut all = List::new(alloc);
    for i in 0..count {
        all.push(parameter(i)?)?;
    }
    Ok(all)
}

/// The type parameter with this number.
fn parameter(number: usize) -> Result<Ty, NoMem>
    ensures { IfOk result (λ ty. ty ≡ t.param number) }
{
    match u32::try_from(number) {
        Ok(number) => Ok(Ty {
            node: TyNode::Param(number),
        }),
        Err(_) => Err(NoMem),
    }
}

/// The constructor of a declared type's variant: it takes the fields and gives the type with all its
/// parameters.
fn constructor(alloc: Global, scope: &Scope, decl: TypeId, variant: u32) -> Result<Callee, NoMem>
    ensures { IfOk result (λ g. as_callee g ≡ spec.callee_of scope.now (e.constructor decl variant)) }
{
    let decls = scope.decls.as_slice();
    let types = parameters_of(decls, decl);
    let params = types_of(alloc, fields_of(decls, decl, variant))?;
    let node = TyNode::Named(decl, parameters(alloc, types)?);
    Ok(Callee {
        types,
        params,
        result: Ty { node },
    })
}

/// A function that takes nothing and gives unit.
fn no_callee(alloc: Global) -> Callee
    ensures { as_callee result ≡ spec.no_callee }
{
    Callee {
        types: 0,
        params: List::new(alloc),
        result: Ty { node: TyNode::Unit },
    }
}

/// What is called: a function, a built-in function, or a constructor.
pub fn callee_of(alloc: Global, scope: &Scope, callee: &resolved::Callee) -> Result<Callee, NoMem>
    ensures { IfOk result (λ g. as_callee g ≡ spec.callee_of scope.now callee.now) }
{
    match &callee.node {
        CalleeNode::Function(number) => match at(scope.sigs.as_slice(), *number as usize) {
            Some(sig) => of_sig(alloc, sig),
            None => Ok(no_callee(alloc)),
        },
        CalleeNode::BuiltinOf(builtin) => {
            let sig = builtin_sig(alloc, *builtin)?;
            of_sig(alloc, &sig)
        }
        CalleeNode::Constructor(decl, variant) => constructor(alloc, scope, *decl, *variant),
    }
}
