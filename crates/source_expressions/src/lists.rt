//! What productions of lists build. Written by tools/source_build.py.

ghost use Rattle.std.specs.Prelude.{◌≡◌, reverse, IfOk};
ghost use Rattle.source_grammar.specs.declared.part.Part.TheVariants as N;
ghost use Rattle.source_values.specs.Stacked.{CanBuild, IsBuilt};
ghost use Rattle.source_grammar.specs.declared.part.Listed.TheVariants as Of;

use aen_base::NoMem;
use source_values::taking::expressions::{take_exprs, take_initial, take_initials};
use source_values::taking::items::{
    take_field, take_idents, take_named_fields, take_param, take_params, take_variant,
    take_variants,
};
use source_values::taking::patterns::{take_field_pat, take_field_pats, take_pats};
use source_values::taking::{take_mark, take_token};
use source_values::{Stack, Value};
use source_ways::front_list::FrontList;
use source_ways::says::ident;
use source_ways::spanned::Spanned;
use source_ways::spans::join;
use std::alloc::Global;

/// `List(Names)` of: CloseBracket.
pub fn list_names_0(alloc: Global, values: &mut Stack) -> Value
    requires { CanBuild (N.List Of.Names) 0 (reverse values.old) }
    ensures { IsBuilt (N.List Of.Names) 0 (reverse values.old) result (reverse values.new) }
{
    let mark = take_mark(values);
    let extent = join(Some(mark), None);
    let value = FrontList::new(alloc);
    Value::Idents(Spanned { value, extent })
}

/// `List(Names)` of: Identifier ListRest(Names). The only error is want of memory.
pub fn list_names_1(alloc: Global, values: &mut Stack) -> Result<Value, NoMem>
    requires { CanBuild (N.List Of.Names) 1 (reverse values.old) }
    ensures { IfOk result (λ it. IsBuilt (N.List Of.Names) 1 (reverse values.old) it (reverse values.new)) }
{
    let more = take_idents(values);
    let one = take_token(values);
    let extent = join(Some(one.span), join(more.extent, None));
    let value = more.value.push(ident(alloc, one)?)?;
    Ok(Value::Idents(Spanned { value, extent }))
}

/// `List(Parameters)` of: CloseBracket.
pub fn list_parameters_0(alloc: Global, values: &mut Stack) -> Value
    requires { CanBuild (N.List Of.Parameters) 0 (reverse values.old) }
    ensures { IsBuilt (N.List Of.Parameters) 0 (reverse values.old) result (reverse values.new) }
{
    let mark = take_mark(values);
    let extent = join(Some(mark), None);
    let value = FrontList::new(alloc);
    Value::Params(Spanned { value, extent })
}

/// `List(Parameters)` of: Parameter ListRest(Parameters). The only error is want of memory.
pub fn list_parameters_1(values: &mut Stack) -> Result<Value, NoMem>
    requires { CanBuild (N.List Of.Parameters) 1 (reverse values.old) }
    ensures { IfOk result (λ it. IsBuilt (N.List Of.Parameters) 1 (reverse values.old) it (reverse values.new)) }
{
    let more = take_params(values);
    let one = take_param(values);
    let extent = join(one.extent, join(more.extent, None));
    let value = more.value.push(one.value)?;
    Ok(Value::Params(Spanned { value, extent }))
}

/// `List(Fields)` of: CloseBrace.
pub fn list_fields_0(alloc: Global, values: &mut Stack) -> Value
    requires { CanBuild (N.List Of.Fields) 0 (reverse values.old) }
    ensures { IsBuilt (N.List Of.Fields) 0 (reverse values.old) result (reverse values.new) }
{
    let mark = take_mark(values);
    let extent = join(Some(mark), None);
    let value = FrontList::new(alloc);
    Value::NamedFields(Spanned { value, extent })
}

/// `List(Fields)` of: Field ListRest(Fields). The only error is want of memory.
pub fn list_fields_1(values: &mut Stack) -> Result<Value, NoMem>
    requires { CanBuild (N.List Of.Fields) 1 (reverse values.old) }
    ensures { IfOk result (λ it. IsBuilt (N.List Of.Fields) 1 (reverse values.old) it (reverse values.new)) }
{
    let more = take_named_fields(values);
    let one = take_field(values);
    let extent = join(one.extent, join(more.extent, None));
    let value = more.value.push(one.value)?;
    Ok(Value::NamedFields(Spanned { value, extent }))
}

/// `List(Variants)` of: CloseBrace.
pub fn list_variants_0(alloc: Global, values: &mut Stack) -> Value
    requires { CanBuild (N.List Of.Variants) 0 (reverse values.old) }
    ensures { IsBuilt (N.List Of.Variants) 0 (reverse values.old) result (reverse values.new) }
{
    let mark = take_mark(values);
    let extent = join(Some(mark), None);
    let value = FrontList::new(alloc);
    Value::Variants(Spanned { value, extent })
}

/// `List(Variants)` of: Variant ListRest(Variants). The only error is want of memory.
pub fn list_variants_1(values: &mut Stack) -> Result<Value, NoMem>
    requires { CanBuild (N.List Of.Variants) 1 (reverse values.old) }
    ensures { IfOk result (λ it. IsBuilt (N.List Of.Variants) 1 (reverse values.old) it (reverse values.new)) }
{
    let more = take_variants(values);
    let one = take_variant(values);
    let extent = join(one.extent, join(more.extent, None));
    let value = more.value.push(one.value)?;
    Ok(Value::Variants(Spanned { value, extent }))
}

/// `List(Initials)` of: CloseBrace.
pub fn list_initials_0(alloc: Global, values: &mut Stack) -> Value
    requires { CanBuild (N.List Of.Initials) 0 (reverse values.old) }
    ensures { IsBuilt (N.List Of.Initials) 0 (reverse values.old) result (reverse values.new) }
{
    let mark = take_mark(values);
    let extent = join(Some(mark), None);
    let value = FrontList::new(alloc);
    Value::Initials(Spanned { value, extent })
}

/// `List(Initials)` of: Initial ListRest(Initials). The only error is want of memory.
pub fn list_initials_1(values: &mut Stack) -> Result<Value, NoMem>
    requires { CanBuild (N.List Of.Initials) 1 (reverse values.old) }
    ensures { IfOk result (λ it. IsBuilt (N.List Of.Initials) 1 (reverse values.old) it (reverse values.new)) }
{
    let more = take_initials(values);
    let one = take_initial(values);
    let extent = join(one.extent, join(more.extent, None));
    let value = more.value.push(one.value)?;
    Ok(Value::Initials(Spanned { value, extent }))
}

/// `List(FieldPatterns)` of: CloseBrace.
pub fn list_field_patterns_0(alloc: Global, values: &mut Stack) -> Value
    requires { CanBuild (N.List Of.FieldPatterns) 0 (reverse values.old) }
    ensures { IsBuilt (N.List Of.FieldPatterns) 0 (reverse values.old) result (reverse values.new) }
{
    let mark = take_mark(values);
    let extent = join(Some(mark), None);
    let value = FrontList::new(alloc);
    Value::FieldPats(Spanned { value, extent })
}

/// `List(FieldPatterns)` of: FieldPattern ListRest(FieldPatterns). The only error is want of memory.
pub fn list_field_patterns_1(values: &mut Stack) -> Result<Value, NoMem>
    requires { CanBuild (N.List Of.FieldPatterns) 1 (reverse values.old) }
    ensures { IfOk result (λ it. IsBuilt (N.List Of.FieldPatterns) 1 (reverse values.old) it (reverse values.new)) }
{
    let more = take_field_pats(values);
    let one = take_field_pat(values);
    let extent = join(one.extent, join(more.extent, None));
    let value = more.value.push(one.value)?;
    Ok(Value::FieldPats(Spanned { value, extent }))
}

/// `ListRest(Parameters)` of: Comma List(Parameters).
pub fn list_rest_parameters_1(values: &mut Stack) -> Value
    requires { CanBuild (N.ListRest Of.Parameters) 1 (reverse values.old) }
    ensures { IsBuilt (N.ListRest Of.Parameters) 1 (reverse values.old) result (reverse values.new) }
{
    let more = take_params(values);
    let mark = take_mark(values);
    let extent = join(Some(mark), join(more.extent, None));
    Value::Params(Spanned {
        value: more.value,
        extent,
    })
}

/// `ListRest(Fields)` of: Comma List(Fields).
pub fn list_rest_fields_1(values: &mut Stack) -> Value
    requires { CanBuild (N.ListRest Of.Fields) 1 (reverse values.old) }
    ensures { IsBuilt (N.ListRest Of.Fields) 1 (reverse values.old) result (reverse values.new) }
{
    let more = take_named_fields(values);
    let mark = take_mark(values);
    let extent = join(Some(mark), join(more.extent, None));
    Value::NamedFields(Spanned {
        value: more.value,
        extent,
    })
}

/// `ListRest(Variants)` of: Comma List(Variants).
pub fn list_rest_variants_1(values: &mut Stack) -> Value
    requires { CanBuild (N.ListRest Of.Variants) 1 (reverse values.old) }
    ensures { IsBuilt (N.ListRest Of.Variants) 1 (reverse values.old) result (reverse values.new) }
{
    let more = take_variants(values);
    let mark = take_mark(values);
    let extent = join(Some(mark), join(more.extent, None));
    Value::Variants(Spanned {
        value: more.value,
        extent,
    })
}

/// `ListRest(Arguments)` of: Comma List(Arguments).
pub fn list_rest_arguments_1(values: &mut Stack) -> Value
    requires { CanBuild (N.ListRest Of.Arguments) 1 (reverse values.old) }
    ensures { IsBuilt (N.ListRest Of.Arguments) 1 (reverse values.old) result (reverse values.new) }
{
    let more = take_exprs(values);
    let mark = take_mark(values);
    let extent = join(Some(mark), join(more.extent, None));
    Value::Exprs(Spanned {
        value: more.value,
        extent,
    })
}

/// `ListRest(Initials)` of: Comma List(Initials).
pub fn list_rest_initials_1(values: &mut Stack) -> Value
    requires { CanBuild (N.ListRest Of.Initials) 1 (reverse values.old) }
    ensures { IsBuilt (N.ListRest Of.Initials) 1 (reverse values.old) result (reverse values.new) }
{
    let more = take_initials(values);
    let mark = take_mark(values);
    let extent = join(Some(mark), join(more.extent, None));
    Value::Initials(Spanned {
        value: more.value,
        extent,
    })
}

/// `ListRest(Patterns)` of: Comma List(Patterns).
pub fn list_rest_patterns_1(values: &mut Stack) -> Value
    requires { CanBuild (N.ListRest Of.Patterns) 1 (reverse values.old) }
    ensures { IsBuilt (N.ListRest Of.Patterns) 1 (reverse values.old) result (reverse values.new) }
{
    let more = take_pats(values);
    let mark = take_mark(values);
    let extent = join(Some(mark), join(more.extent, None));
    Value::Pats(Spanned {
        value: more.value,
        extent,
    })
}

/// `ListRest(FieldPatterns)` of: Comma List(FieldPatterns).
pub fn list_rest_field_patterns_1(values: &mut Stack) -> Value
    requires { CanBuild (N.ListRest Of.FieldPatterns) 1 (reverse values.old) }
    ensures { IsBuilt (N.ListRest Of.FieldPatterns) 1 (reverse values.old) result (reverse values.new) }
{
    let more = take_field_pats(values);
    let mark = take_mark(values);
    let extent = join(Some(mark), join(more.extent, None));
    Value::FieldPats(Spanned {
        value: more.value,
        extent,
    })
}
