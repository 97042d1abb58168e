//! What productions of declarations build. Written by tools/text_ways.py.

ghost use Rattle.std.specs.Prelude.{◌≡◌, reverse, IfOk};
ghost use Rattle.text_table.specs.declared.part.Part.TheVariants as N;
ghost use Rattle.raw_ways.specs.Built.{CanBuild, IsBuilt};

use aen_base::{Boxed, NoMem};
use raw_values::front_list::FrontList;
use raw_values::taking::declarations::{
    take_after_name, take_declaration, take_declarations, take_fields, take_names,
    take_variant_rest, take_variants,
};
use raw_values::taking::definitions::take_definitions;
use raw_values::taking::types::take_type;
use raw_values::taking::{drop_token, take_token};
use raw_values::{Stack, Value};
use raw_ways::{declarations, spelled};
use std::alloc::Global;

/// `Text` of: Import AenPrelude Open AenPrelude Types Definitions. The only error is want of memory.
pub fn text_0(alloc: Global, values: &mut Stack) -> Result<Value, NoMem>
    requires { CanBuild N.Text 0 (reverse values.old) }
    ensures { IfOk result (λ it. IsBuilt N.Text 0 (reverse values.old) it (reverse values.new)) }
{
    let definitions = take_definitions(values);
    let types = take_declarations(values);
    drop_token(values);
    drop_token(values);
    drop_token(values);
    drop_token(values);
    let value = declarations::text(types, definitions);
    Ok(Value::Text(Boxed::new(alloc, value)?))
}

/// `Types` of: nothing.
pub fn types_0(alloc: Global, values: &mut Stack) -> Value
    requires { CanBuild N.Types 0 (reverse values.old) }
    ensures { IsBuilt N.Types 0 (reverse values.old) result (reverse values.new) }
{
    let value = FrontList::new(alloc);
    Value::Declarations(value)
}

/// `Types` of: Declaration Types. The only error is want of memory.
pub fn types_1(values: &mut Stack) -> Result<Value, NoMem>
    requires { CanBuild N.Types 1 (reverse values.old) }
    ensures { IfOk result (λ it. IsBuilt N.Types 1 (reverse values.old) it (reverse values.new)) }
{
    let more = take_declarations(values);
    let one = take_declaration(values);
    let value = more.push(one)?;
    Ok(Value::Declarations(value))
}

/// `Declaration` of: Inductive Name TypeParameters Where Variants. The only error is want of memory.
pub fn declaration_0(alloc: Global, values: &mut Stack) -> Result<Value, NoMem>
    requires { CanBuild N.Declaration 0 (reverse values.old) }
    ensures { IfOk result (λ it. IsBuilt N.Declaration 0 (reverse values.old) it (reverse values.new)) }
{
    let variants = take_variants(values);
    drop_token(values);
    let parameters = take_names(values);
    let name = take_token(values);
    drop_token(values);
    let value = declarations::inductive(name, parameters, variants);
    Ok(Value::Declaration(Boxed::new(alloc, value)?))
}

/// `Declaration` of: Structure Name TypeParameters Where Fields. The only error is want of memory.
pub fn declaration_1(alloc: Global, values: &mut Stack) -> Result<Value, NoMem>
    requires { CanBuild N.Declaration 1 (reverse values.old) }
    ensures { IfOk result (λ it. IsBuilt N.Declaration 1 (reverse values.old) it (reverse values.new)) }
{
    let fields = take_fields(values);
    drop_token(values);
    let parameters = take_names(values);
    let name = take_token(values);
    drop_token(values);
    let value = declarations::structure(name, parameters, fields);
    Ok(Value::Declaration(Boxed::new(alloc, value)?))
}

/// `TypeParameters` of: nothing.
pub fn type_parameters_0(alloc: Global, values: &mut Stack) -> Value
    requires { CanBuild N.TypeParameters 0 (reverse values.old) }
    ensures { IsBuilt N.TypeParameters 0 (reverse values.old) result (reverse values.new) }
{
    let value = FrontList::new(alloc);
    Value::Names(value)
}

/// `TypeParameters` of: OpenBracket Name Colon Type CloseBracket TypeParameters. The only error is want of memory.
pub fn type_parameters_1(values: &mut Stack) -> Result<Value, NoMem>
    requires { CanBuild N.TypeParameters 1 (reverse values.old) }
    ensures { IfOk result (λ it. IsBuilt N.TypeParameters 1 (reverse values.old) it (reverse values.new)) }
{
    let more = take_names(values);
    drop_token(values);
    drop_token(values);
    drop_token(values);
    let name = take_token(values);
    drop_token(values);
    let value = more.push(spelled(name))?;
    Ok(Value::Names(value))
}

/// `Variants` of: nothing.
pub fn variants_0(alloc: Global, values: &mut Stack) -> Value
    requires { CanBuild N.Variants 0 (reverse values.old) }
    ensures { IsBuilt N.Variants 0 (reverse values.old) result (reverse values.new) }
{
    let value = FrontList::new(alloc);
    Value::Variants(value)
}

/// `Variants` of: Bar Name Colon VariantType Variants. The only error is want of memory.
pub fn variants_1(values: &mut Stack) -> Result<Value, NoMem>
    requires { CanBuild N.Variants 1 (reverse values.old) }
    ensures { IfOk result (λ it. IsBuilt N.Variants 1 (reverse values.old) it (reverse values.new)) }
{
    let more = take_variants(values);
    let rest = take_variant_rest(values);
    drop_token(values);
    let name = take_token(values);
    drop_token(values);
    let value = more.push(declarations::variant(name, rest))?;
    Ok(Value::Variants(value))
}

/// `VariantType` of: OtherType To VariantType. The only error is want of memory.
pub fn variant_type_0(alloc: Global, values: &mut Stack) -> Result<Value, NoMem>
    requires { CanBuild N.VariantType 0 (reverse values.old) }
    ensures { IfOk result (λ it. IsBuilt N.VariantType 0 (reverse values.old) it (reverse values.new)) }
{
    let rest = take_variant_rest(values);
    drop_token(values);
    let ty = take_type(values);
    let value = declarations::field_first(ty, rest)?;
    Ok(Value::VariantRest(Boxed::new(alloc, value)?))
}

/// `VariantType` of: Name VariantEnd. The only error is want of memory.
pub fn variant_type_1(alloc: Global, values: &mut Stack) -> Result<Value, NoMem>
    requires { CanBuild N.VariantType 1 (reverse values.old) }
    ensures { IfOk result (λ it. IsBuilt N.VariantType 1 (reverse values.old) it (reverse values.new)) }
{
    let after = take_after_name(values);
    let name = take_token(values);
    let value = declarations::name_first(alloc, name, after)?;
    Ok(Value::VariantRest(Boxed::new(alloc, value)?))
}

/// `VariantEnd` of: nothing. The only error is want of memory.
pub fn variant_end_0(alloc: Global, values: &mut Stack) -> Result<Value, NoMem>
    requires { CanBuild N.VariantEnd 0 (reverse values.old) }
    ensures { IfOk result (λ it. IsBuilt N.VariantEnd 0 (reverse values.old) it (reverse values.new)) }
{
    let value = declarations::ended(alloc);
    Ok(Value::AfterName(Boxed::new(alloc, value)?))
}

/// `VariantEnd` of: To VariantType. The only error is want of memory.
pub fn variant_end_1(alloc: Global, values: &mut Stack) -> Result<Value, NoMem>
    requires { CanBuild N.VariantEnd 1 (reverse values.old) }
    ensures { IfOk result (λ it. IsBuilt N.VariantEnd 1 (reverse values.old) it (reverse values.new)) }
{
    let rest = take_variant_rest(values);
    drop_token(values);
    let value = declarations::more_fields(rest);
    Ok(Value::AfterName(Boxed::new(alloc, value)?))
}

/// `VariantEnd` of: Name Names. The only error is want of memory.
pub fn variant_end_2(alloc: Global, values: &mut Stack) -> Result<Value, NoMem>
    requires { CanBuild N.VariantEnd 2 (reverse values.old) }
    ensures { IfOk result (λ it. IsBuilt N.VariantEnd 2 (reverse values.old) it (reverse values.new)) }
{
    let more = take_names(values);
    let name = take_token(values);
    let value = declarations::end_parameters(more.push(spelled(name))?);
    Ok(Value::AfterName(Boxed::new(alloc, value)?))
}

/// `Names` of: Name Names. The only error is want of memory.
pub fn names_1(values: &mut Stack) -> Result<Value, NoMem>
    requires { CanBuild N.Names 1 (reverse values.old) }
    ensures { IfOk result (λ it. IsBuilt N.Names 1 (reverse values.old) it (reverse values.new)) }
{
    let more = take_names(values);
    let name = take_token(values);
    let value = more.push(spelled(name))?;
    Ok(Value::Names(value))
}

/// `Fields` of: nothing.
pub fn fields_0(alloc: Global, values: &mut Stack) -> Value
    requires { CanBuild N.Fields 0 (reverse values.old) }
    ensures { IsBuilt N.Fields 0 (reverse values.old) result (reverse values.new) }
{
    let value = FrontList::new(alloc);
    Value::Fields(value)
}

/// `Fields` of: OpenBracket Name Colon Type CloseBracket Fields. The only error is want of memory.
pub fn fields_1(values: &mut Stack) -> Result<Value, NoMem>
    requires { CanBuild N.Fields 1 (reverse values.old) }
    ensures { IfOk result (λ it. IsBuilt N.Fields 1 (reverse values.old) it (reverse values.new)) }
{
    let more = take_fields(values);
    drop_token(values);
    let ty = take_type(values);
    drop_token(values);
    let name = take_token(values);
    drop_token(values);
    let value = more.push(declarations::field(name, ty))?;
    Ok(Value::Fields(value))
}
