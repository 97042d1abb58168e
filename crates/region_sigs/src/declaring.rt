//! The declared types of a program, as they are written and as they are typed.

ghost use Rattle.std.specs.Prelude.{◌≡◌, ℕ, List, slice_get, unwrap_or};
ghost use Rattle.type_rules.specs.Declarations.{parameter_numbers};
ghost use Rattle.type_rules.specs.TypesInBodies as bodies;

use aen_base::{List, TypeId, at};
use core_ty::TypeDecl;
use rust_ast::resolution::Declared;

/// Declared types, each with a number of parameters.
pub trait Declaring {
    ghost use Rattle.std.specs.Prelude.{◌≡◌, ℕ, List, slice_get, unwrap_or};

    /// How many parameters each has.
    ghost numbers: { Self → List ℕ };

    /// How many parameters a declared type has; none where there is no such type.
    fn arity(&self, decl: TypeId) -> usize
        ensures { result ≡ unwrap_or (slice_get (numbers self.now) decl.0) 0 };
}

/// How many parameters a declared type has, as it is written.
fn written_arity(types: &[Declared], decl: TypeId) -> usize
    ensures { result ≡ unwrap_or (slice_get (parameter_numbers types.now) decl.0) 0 }
{
    match at(types, decl.0 as usize) {
        None => 0,
        Some(found) => found.params.len(),
    }
}

/// How many parameters a declared type has, as it is typed.
fn typed_arity(types: &[TypeDecl], decl: TypeId) -> usize
    ensures { result ≡ unwrap_or (slice_get (bodies.numbers types.now) decl.0) 0 }
{
    match at(types, decl.0 as usize) {
        None => 0,
        Some(found) => found.params.len(),
    }
}

impl Declaring for List<Declared> {
    ghost use Rattle.type_rules.specs.Declarations.{parameter_numbers};

    ghost numbers = { parameter_numbers };

    fn arity(&self, decl: TypeId) -> usize {
        written_arity(self.as_slice(), decl)
    }
}

impl Declaring for List<TypeDecl> {
    ghost use Rattle.type_rules.specs.TypesInBodies as bodies;

    ghost numbers = { bodies.numbers };

    fn arity(&self, decl: TypeId) -> usize {
        typed_arity(self.as_slice(), decl)
    }
}
