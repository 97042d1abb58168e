//! Whether a type is covered. The only error is want of memory.
ghost use Rattle.std.specs.Prelude.{◌≡◌, [], ◌∷◌, IfOk};
ghost use Rattle.rust_ast.specs.Spelled as s;
ghost use Rattle.type_cover.specs.Suits.{PatternsSuit};
ghost use Rattle.type_rules.specs.Branches.{patterns_of};
ghost use Rattle.type_rules.specs.Coverage as spec;

use aen_base::{List, NoMem};
use core_ty::{Ty, TypeDecl};
use rust_ast::spelled::Val;
use rust_ast::spelled_patterns::Pat;
use std::alloc::Global;
use type_cover::is_covered;

/// Whether some value of the type meets none of the arms, whose patterns suit it.
pub fn are_uncovered(
    alloc: Global,
    decls: &List<TypeDecl>,
    ty: &Ty,
    arms: &[(Pat, Val)],
) -> Result<bool, NoMem>
    requires suit { PatternsSuit decls.now (patterns_of (s.arms arms.now)) ty.now }
    ensures { IfOk result (λ b. b ≡ spec.is_uncovered decls.now ty.now (patterns_of (s.arms arms.now))) }
{
    let mut patterns = List::new(alloc);
    for arm in arms {
        patterns.push(&arm.0)?;
    }
    Ok(!is_covered(alloc, decls.as_slice(), ty, patterns.as_slice())?)
}

/// Whether some value of the type doesn't meet the pattern, which suits it.
pub fn is_uncovered_by(
    alloc: Global,
    decls: &List<TypeDecl>,
    ty: &Ty,
    pattern: &Pat,
) -> Result<bool, NoMem>
    requires suit { PatternsSuit decls.now (pattern.now ∷ []) ty.now }
    ensures { IfOk result (λ b. b ≡ spec.is_uncovered decls.now ty.now (pattern.now ∷ [])) }
{
    let mut patterns = List::new(alloc);
    patterns.push(pattern)?;
    Ok(!is_covered(alloc, decls.as_slice(), ty, patterns.as_slice())?)
}
