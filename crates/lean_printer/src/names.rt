//! Prints the names of constructors, definitions and primitives.
ghost use Rattle.std.specs.Prelude.{◌≡◌, ◌∷◌, ◌++◌, OnOk, string_bytes};
ghost use Rattle.text_meaning.specs.Lookups as lookups;
ghost use Rattle.text_meaning.specs.ShownNames as spec;

use crate::put::{put, put_decimal};
use crate::words::{arith_word, bool_word, compare_word, int_word};
use aen_base::{Builtin, DefId, FnId, NoMem, TypeId, at};
use pure_ast::{CtorId, DefKind, Defs, Primitive};
use text_meaning::is_bare;

/// Adds a name, between marks where it may not stand as it is.
pub(crate) fn put_name(out: &mut String, name: &str) -> Result<(), NoMem>
    ensures { OnOk result (string_bytes out.new ≡ string_bytes out.old ++ spec.name_text name.now) }
{
    if is_bare(name) {
        put(out, name)
    } else {
        put(out, "«")?;
        put(out, name)?;
        put(out, "»")
    }
}

/// A type's name, empty where there is no such type.
pub(crate) fn type_name<'a>(defs: &'a Defs, ty: TypeId) -> &'a str
    ensures { result.now ≡ lookups.type_name defs.now ty.0 }
{
    match at(defs.types.as_slice(), ty.0 as usize) {
        Some(decl) => decl.name.as_str(),
        None => "",
    }
}

/// A variant's name, empty where there is no such variant.
fn variant_name<'a>(defs: &'a Defs, ty: TypeId, variant: u32) -> &'a str
    ensures { result.now ≡ lookups.variant_name defs.now ty.0 variant }
{
    match at(defs.types.as_slice(), ty.0 as usize) {
        Some(decl) => match at(decl.variants.as_slice(), variant as usize) {
            Some((name, _)) => name.as_str(),
            None => "",
        },
        None => "",
    }
}

/// A function's name, empty where there is no such function.
fn function_name<'a>(defs: &'a Defs, f: FnId) -> &'a str
    ensures { result.now ≡ lookups.function_name defs.now f.0 }
{
    match at(defs.names.as_slice(), f.0 as usize) {
        Some(name) => name.as_str(),
        None => "",
    }
}

pub(crate) fn put_ctor(out: &mut String, defs: &Defs, ctor: CtorId) -> Result<(), NoMem>
    ensures { OnOk result (string_bytes out.new ≡ string_bytes out.old ++ spec.ctor_text defs.now ctor) }
{
    match ctor {
        CtorId::Of(ty, variant) => {
            put_name(out, type_name(defs, ty))?;
            put(out, ".")?;
            put_name(out, variant_name(defs, ty, variant))
        }
        CtorId::Brk => put(out, "Exit.brk"),
        CtorId::Ret => put(out, "Exit.ret"),
    }
}

fn put_function(out: &mut String, defs: &Defs, f: FnId) -> Result<(), NoMem>
    ensures { OnOk result (string_bytes out.new ≡ string_bytes out.old ++ spec.function_text defs.now f.0) }
{
    put(out, "fn.")?;
    put_name(out, function_name(defs, f))
}

/// Adds a definition's name, as `fn.f.loop0.back1`.
pub(crate) fn put_kind(out: &mut String, defs: &Defs, kind: DefKind) -> Result<(), NoMem>
    ensures { OnOk result (string_bytes out.new ≡ string_bytes out.old ++ spec.kind_text defs.now kind) }
{
    match kind {
        DefKind::Forward(f) => put_function(out, defs, f),
        DefKind::Back(f, region) => {
            put_function(out, defs, f)?;
            put(out, ".back")?;
            put_decimal(out, region.0 as u64)
        }
        DefKind::Loop(f, place) => {
            put_function(out, defs, f)?;
            put(out, ".loop")?;
            put_decimal(out, place.0 as u64)
        }
        DefKind::LoopBack(f, place, class) => {
            put_function(out, defs, f)?;
            put(out, ".loop")?;
            put_decimal(out, place.0 as u64)?;
            put(out, ".back")?;
            put_decimal(out, class as u64)
        }
    }
}

/// Adds the name of the definition of this number, nothing where there is none.
pub(crate) fn put_callee(out: &mut String, defs: &Defs, def: DefId) -> Result<(), NoMem>
    ensures { OnOk result (string_bytes out.new ≡ string_bytes out.old ++ spec.callee_text defs.now def.0) }
{
    match at(defs.defs.as_slice(), def.0 as usize) {
        Some(callee) => put_kind(out, defs, callee.kind),
        None => put(out, ""),
    }
}

fn put_builtin(out: &mut String, builtin: Builtin) -> Result<(), NoMem>
    ensures { OnOk result (string_bytes out.new ≡ string_bytes out.old ++ spec.builtin_text builtin) }
{
    match builtin {
        Builtin::BoxNew => put(out, "Box.new"),
        Builtin::Replace => put(out, "mem.replace"),
        Builtin::Swap => put(out, "mem.swap"),
    }
}

/// Adds two words with a dot between them.
fn put_dotted(out: &mut String, first: &str, second: &str) -> Result<(), NoMem>
    ensures { OnOk result (string_bytes out.new ≡ string_bytes out.old ++ (first.now ++ (46 ∷ second.now))) }
{
    put(out, first)?;
    put(out, ".")?;
    put(out, second)
}

pub(crate) fn put_primitive(out: &mut String, primitive: Primitive) -> Result<(), NoMem>
    ensures { OnOk result (string_bytes out.new ≡ string_bytes out.old ++ spec.prim_text primitive) }
{
    match primitive {
        Primitive::Arith(ty, op) => put_dotted(out, int_word(ty), arith_word(op)),
        Primitive::Neg(ty) => put_dotted(out, int_word(ty), "neg"),
        Primitive::Not(ty) => put_dotted(out, int_word(ty), "not"),
        Primitive::Compare(ty, op) => put_dotted(out, int_word(ty), compare_word(op)),
        Primitive::Bools(op) => put_dotted(out, "Bool", bool_word(op)),
        Primitive::Cast(from, to) => {
            put(out, "cast.")?;
            put_dotted(out, int_word(from), int_word(to))
        }
        Primitive::CastBool(to) => put_dotted(out, "cast.Bool", int_word(to)),
        Primitive::Forward(builtin) => put_builtin(out, builtin),
        Primitive::Back(builtin, region) => {
            put_builtin(out, builtin)?;
            put(out, ".back")?;
            put_decimal(out, region.0 as u64)
        }
    }
}
