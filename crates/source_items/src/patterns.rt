//! What productions of patterns build. Written by tools/source_build.py.

ghost use Rattle.std.specs.Prelude.{◌≡◌, reverse, IfOk};
ghost use Rattle.source_grammar.specs.declared.part.Part.TheVariants as N;
ghost use Rattle.source_values.specs.Stacked.{CanBuild, IsBuilt};

use aen_base::NoMem;
use item_ways::patterns;
use rust_ast::source_patterns::{Pat, PatNode};
use source_values::taking::patterns::{
    take_after_mem, take_after_name, take_field_pats, take_given, take_maybe_pat, take_pat,
    take_pats,
};
use source_values::taking::types::take_writtens;
use source_values::taking::{take_mark, take_token};
use source_values::{Stack, Value};
use source_ways::constructors::{AfterMem, AfterName, Given};
use source_ways::front_list::FrontList;
use source_ways::spanned::Spanned;
use source_ways::spans::{join, span_of};
use std::alloc::Global;

/// `Pattern` of: Wild.
pub fn pattern_0(values: &mut Stack) -> Value
    requires { CanBuild N.Pattern 0 (reverse values.old) }
    ensures { IsBuilt N.Pattern 0 (reverse values.old) result (reverse values.new) }
{
    let mark = take_mark(values);
    let extent = join(Some(mark), None);
    let value = Pat {
        node: PatNode::Wild(span_of(extent)),
    };
    Value::Pat(Spanned { value, extent })
}

/// `Pattern` of: Mut Identifier. The only error is want of memory.
pub fn pattern_1(alloc: Global, values: &mut Stack) -> Result<Value, NoMem>
    requires { CanBuild N.Pattern 1 (reverse values.old) }
    ensures { IfOk result (λ it. IsBuilt N.Pattern 1 (reverse values.old) it (reverse values.new)) }
{
    let name = take_token(values);
    let mutable = take_token(values);
    let extent = join(Some(mutable.span), join(Some(name.span), None));
    let value = patterns::binding(alloc, span_of(extent), mutable, name)?;
    Ok(Value::Pat(Spanned { value, extent }))
}

/// `Pattern` of: Minus Integer.
pub fn pattern_2(values: &mut Stack) -> Value
    requires { CanBuild N.Pattern 2 (reverse values.old) }
    ensures { IsBuilt N.Pattern 2 (reverse values.old) result (reverse values.new) }
{
    let number = take_token(values);
    let minus = take_token(values);
    let extent = join(Some(minus.span), join(Some(number.span), None));
    let value = patterns::negative_pattern(span_of(extent), minus, number);
    Value::Pat(Spanned { value, extent })
}

/// `Pattern` of: Integer.
pub fn pattern_3(values: &mut Stack) -> Value
    requires { CanBuild N.Pattern 3 (reverse values.old) }
    ensures { IsBuilt N.Pattern 3 (reverse values.old) result (reverse values.new) }
{
    let number = take_token(values);
    let extent = join(Some(number.span), None);
    let value = patterns::number_pattern(span_of(extent), number);
    Value::Pat(Spanned { value, extent })
}

/// `Pattern` of: BoolLiteral.
pub fn pattern_4(values: &mut Stack) -> Value
    requires { CanBuild N.Pattern 4 (reverse values.old) }
    ensures { IsBuilt N.Pattern 4 (reverse values.old) result (reverse values.new) }
{
    let word = take_token(values);
    let extent = join(Some(word.span), None);
    let value = patterns::truth_pattern(span_of(extent), word);
    Value::Pat(Spanned { value, extent })
}

/// `Pattern` of: OpenBracket AfterPatternOpen.
pub fn pattern_5(values: &mut Stack) -> Value
    requires { CanBuild N.Pattern 5 (reverse values.old) }
    ensures { IsBuilt N.Pattern 5 (reverse values.old) result (reverse values.new) }
{
    let pats = take_pats(values);
    let bracket = take_token(values);
    let extent = join(Some(bracket.span), join(pats.extent, None));
    let value = patterns::bracketed_pattern(span_of(extent), bracket, pats);
    Value::Pat(Spanned { value, extent })
}

/// `Pattern` of: PatternName AfterPatternName. The only error is want of memory.
pub fn pattern_6(alloc: Global, values: &mut Stack) -> Result<Value, NoMem>
    requires { CanBuild N.Pattern 6 (reverse values.old) }
    ensures { IfOk result (λ it. IsBuilt N.Pattern 6 (reverse values.old) it (reverse values.new)) }
{
    let rest = take_after_name(values);
    let name = take_token(values);
    let extent = join(Some(name.span), join(rest.extent, None));
    let value = patterns::named_pattern(alloc, span_of(extent), name, rest)?;
    Ok(Value::Pat(Spanned { value, extent }))
}

/// `Pattern` of: Box Colons New PatternParts.
pub fn pattern_9(values: &mut Stack) -> Value
    requires { CanBuild N.Pattern 9 (reverse values.old) }
    ensures { IsBuilt N.Pattern 9 (reverse values.old) result (reverse values.new) }
{
    let parts = take_given(values);
    let new = take_token(values);
    let colons = take_token(values);
    let word = take_token(values);
    let extent = join(
        Some(word.span),
        join(
            Some(colons.span),
            join(Some(new.span), join(parts.extent, None)),
        ),
    );
    let value = patterns::box_new_pattern(span_of(extent), word, colons, new, parts);
    Value::Pat(Spanned { value, extent })
}

/// `AfterPatternOpen` of: CloseBracket.
pub fn after_pattern_open_0(alloc: Global, values: &mut Stack) -> Value
    requires { CanBuild N.AfterPatternOpen 0 (reverse values.old) }
    ensures { IsBuilt N.AfterPatternOpen 0 (reverse values.old) result (reverse values.new) }
{
    let mark = take_mark(values);
    let extent = join(Some(mark), None);
    let value = FrontList::new(alloc);
    Value::Pats(Spanned { value, extent })
}

/// `AfterPatternOpen` of: Pattern AfterPattern. The only error is want of memory.
pub fn after_pattern_open_1(values: &mut Stack) -> Result<Value, NoMem>
    requires { CanBuild N.AfterPatternOpen 1 (reverse values.old) }
    ensures { IfOk result (λ it. IsBuilt N.AfterPatternOpen 1 (reverse values.old) it (reverse values.new)) }
{
    let more = take_pats(values);
    let pat = take_pat(values);
    let extent = join(pat.extent, join(more.extent, None));
    let value = more.value.push(pat.value)?;
    Ok(Value::Pats(Spanned { value, extent }))
}

/// `AfterPattern` of: Comma Pattern ListRest(Patterns). The only error is want of memory.
pub fn after_pattern_1(values: &mut Stack) -> Result<Value, NoMem>
    requires { CanBuild N.AfterPattern 1 (reverse values.old) }
    ensures { IfOk result (λ it. IsBuilt N.AfterPattern 1 (reverse values.old) it (reverse values.new)) }
{
    let more = take_pats(values);
    let pat = take_pat(values);
    let mark = take_mark(values);
    let extent = join(Some(mark), join(pat.extent, join(more.extent, None)));
    let value = more.value.push(pat.value)?;
    Ok(Value::Pats(Spanned { value, extent }))
}

/// `FieldPattern` of: Identifier FieldPatternValue. The only error is want of memory.
pub fn field_pattern_0(alloc: Global, values: &mut Stack) -> Result<Value, NoMem>
    requires { CanBuild N.FieldPattern 0 (reverse values.old) }
    ensures { IfOk result (λ it. IsBuilt N.FieldPattern 0 (reverse values.old) it (reverse values.new)) }
{
    let pat = take_maybe_pat(values);
    let name = take_token(values);
    let extent = join(Some(name.span), join(pat.extent, None));
    let value = patterns::field_pattern(alloc, span_of(extent), name, pat)?;
    Ok(Value::FieldPat(Spanned { value, extent }))
}

/// `FieldPatternValue` of: nothing.
pub fn field_pattern_value_0(values: &mut Stack) -> Value
    requires { CanBuild N.FieldPatternValue 0 (reverse values.old) }
    ensures { IsBuilt N.FieldPatternValue 0 (reverse values.old) result (reverse values.new) }
{
    let extent = None;
    let value = None;
    Value::MaybePat(Spanned { value, extent })
}

/// `FieldPatternValue` of: Colon Pattern.
pub fn field_pattern_value_1(values: &mut Stack) -> Value
    requires { CanBuild N.FieldPatternValue 1 (reverse values.old) }
    ensures { IsBuilt N.FieldPatternValue 1 (reverse values.old) result (reverse values.new) }
{
    let pat = take_pat(values);
    let mark = take_mark(values);
    let extent = join(Some(mark), join(pat.extent, None));
    let value = Some(pat.value);
    Value::MaybePat(Spanned { value, extent })
}

/// `PatternParts` of: nothing.
pub fn pattern_parts_0(alloc: Global, values: &mut Stack) -> Value
    requires { CanBuild N.PatternParts 0 (reverse values.old) }
    ensures { IsBuilt N.PatternParts 0 (reverse values.old) result (reverse values.new) }
{
    let extent = None;
    let value = Given::Placed(FrontList::new(alloc));
    Value::Given(Spanned { value, extent })
}

/// `PatternParts` of: GivenParts.
pub fn pattern_parts_1(values: &mut Stack) -> Value
    requires { CanBuild N.PatternParts 1 (reverse values.old) }
    ensures { IsBuilt N.PatternParts 1 (reverse values.old) result (reverse values.new) }
{
    let parts = take_given(values);
    let extent = join(parts.extent, None);
    Value::Given(Spanned {
        value: parts.value,
        extent,
    })
}

/// `GivenParts` of: OpenBracket List(Patterns).
pub fn given_parts_0(values: &mut Stack) -> Value
    requires { CanBuild N.GivenParts 0 (reverse values.old) }
    ensures { IsBuilt N.GivenParts 0 (reverse values.old) result (reverse values.new) }
{
    let pats = take_pats(values);
    let mark = take_mark(values);
    let extent = join(Some(mark), join(pats.extent, None));
    let value = Given::Placed(pats.value);
    Value::Given(Spanned { value, extent })
}

/// `GivenParts` of: OpenBrace List(FieldPatterns).
pub fn given_parts_1(values: &mut Stack) -> Value
    requires { CanBuild N.GivenParts 1 (reverse values.old) }
    ensures { IsBuilt N.GivenParts 1 (reverse values.old) result (reverse values.new) }
{
    let fields = take_field_pats(values);
    let mark = take_mark(values);
    let extent = join(Some(mark), join(fields.extent, None));
    let value = Given::Named(fields.value);
    Value::Given(Spanned { value, extent })
}

/// `AfterPatternName` of: nothing.
pub fn after_pattern_name_0(values: &mut Stack) -> Value
    requires { CanBuild N.AfterPatternName 0 (reverse values.old) }
    ensures { IsBuilt N.AfterPatternName 0 (reverse values.old) result (reverse values.new) }
{
    let extent = None;
    let value = AfterName::Nothing;
    Value::AfterName(Spanned { value, extent })
}

/// `AfterPatternName` of: GivenParts.
pub fn after_pattern_name_1(values: &mut Stack) -> Value
    requires { CanBuild N.AfterPatternName 1 (reverse values.old) }
    ensures { IsBuilt N.AfterPatternName 1 (reverse values.old) result (reverse values.new) }
{
    let parts = take_given(values);
    let extent = join(parts.extent, None);
    let value = AfterName::Parts(parts.value);
    Value::AfterName(Spanned { value, extent })
}

/// `AfterPatternName` of: Colons AfterPatternColons.
pub fn after_pattern_name_2(values: &mut Stack) -> Value
    requires { CanBuild N.AfterPatternName 2 (reverse values.old) }
    ensures { IsBuilt N.AfterPatternName 2 (reverse values.old) result (reverse values.new) }
{
    let rest = take_after_name(values);
    let mark = take_mark(values);
    let extent = join(Some(mark), join(rest.extent, None));
    Value::AfterName(Spanned {
        value: rest.value,
        extent,
    })
}

/// `AfterPatternColons` of: Less List(TypesInAngles) Colons Identifier PatternParts. The only error is want of memory.
pub fn after_pattern_colons_0(alloc: Global, values: &mut Stack) -> Result<Value, NoMem>
    requires { CanBuild N.AfterPatternColons 0 (reverse values.old) }
    ensures { IfOk result (λ it. IsBuilt N.AfterPatternColons 0 (reverse values.old) it (reverse values.new)) }
{
    let parts = take_given(values);
    let name = take_token(values);
    let colons = take_token(values);
    let types = take_writtens(values);
    let less = take_token(values);
    let extent = join(
        Some(less.span),
        join(
            types.extent,
            join(
                Some(colons.span),
                join(Some(name.span), join(parts.extent, None)),
            ),
        ),
    );
    let value = patterns::second_after_types(
        alloc,
        span_of(extent),
        less,
        types,
        colons,
        name,
        parts,
    )?;
    Ok(Value::AfterName(Spanned { value, extent }))
}

/// `AfterPatternColons` of: Identifier PatternParts. The only error is want of memory.
pub fn after_pattern_colons_1(alloc: Global, values: &mut Stack) -> Result<Value, NoMem>
    requires { CanBuild N.AfterPatternColons 1 (reverse values.old) }
    ensures { IfOk result (λ it. IsBuilt N.AfterPatternColons 1 (reverse values.old) it (reverse values.new)) }
{
    let parts = take_given(values);
    let name = take_token(values);
    let extent = join(Some(name.span), join(parts.extent, None));
    let value = patterns::second_name(alloc, span_of(extent), name, parts)?;
    Ok(Value::AfterName(Spanned { value, extent }))
}

/// `AfterPatternMemColons` of: SwapName PatternParts.
pub fn after_pattern_mem_colons_1(values: &mut Stack) -> Value
    requires { CanBuild N.AfterPatternMemColons 1 (reverse values.old) }
    ensures { IsBuilt N.AfterPatternMemColons 1 (reverse values.old) result (reverse values.new) }
{
    let parts = take_given(values);
    let word = take_token(values);
    let extent = join(Some(word.span), join(parts.extent, None));
    let value = patterns::built_in_name(span_of(extent), word, parts);
    Value::AfterName(Spanned { value, extent })
}

/// `AfterPatternStdColons` of: Mem AfterPatternStdMem. The only error is want of memory.
pub fn after_pattern_std_colons_1(alloc: Global, values: &mut Stack) -> Result<Value, NoMem>
    requires { CanBuild N.AfterPatternStdColons 1 (reverse values.old) }
    ensures { IfOk result (λ it. IsBuilt N.AfterPatternStdColons 1 (reverse values.old) it (reverse values.new)) }
{
    let rest = take_after_mem(values);
    let mem = take_token(values);
    let extent = join(Some(mem.span), join(rest.extent, None));
    let value = patterns::std_mem_name(alloc, span_of(extent), mem, rest)?;
    Ok(Value::AfterName(Spanned { value, extent }))
}

/// `AfterPatternStdMem` of: nothing.
pub fn after_pattern_std_mem_0(alloc: Global, values: &mut Stack) -> Value
    requires { CanBuild N.AfterPatternStdMem 0 (reverse values.old) }
    ensures { IsBuilt N.AfterPatternStdMem 0 (reverse values.old) result (reverse values.new) }
{
    let extent = None;
    let value = AfterMem::Second(Given::Placed(FrontList::new(alloc)));
    Value::AfterMem(Spanned { value, extent })
}

/// `AfterPatternStdMem` of: GivenParts.
pub fn after_pattern_std_mem_1(values: &mut Stack) -> Value
    requires { CanBuild N.AfterPatternStdMem 1 (reverse values.old) }
    ensures { IsBuilt N.AfterPatternStdMem 1 (reverse values.old) result (reverse values.new) }
{
    let parts = take_given(values);
    let extent = join(parts.extent, None);
    let value = AfterMem::Second(parts.value);
    Value::AfterMem(Spanned { value, extent })
}

/// `AfterPatternStdMem` of: Colons SwapName PatternParts.
pub fn after_pattern_std_mem_2(values: &mut Stack) -> Value
    requires { CanBuild N.AfterPatternStdMem 2 (reverse values.old) }
    ensures { IsBuilt N.AfterPatternStdMem 2 (reverse values.old) result (reverse values.new) }
{
    let parts = take_given(values);
    let word = take_token(values);
    let colons = take_token(values);
    let extent = join(
        Some(colons.span),
        join(Some(word.span), join(parts.extent, None)),
    );
    let value = patterns::std_built_in_name(span_of(extent), colons, word, parts);
    Value::AfterMem(Spanned { value, extent })
}
