//! The productions (docs/LANGUAGE.md, "Grammar"). Written by tools/grammar.py.

mod blocks;
mod expressions;
mod items;
mod lists;
mod paths;
mod patterns;
mod types;

ghost use Rattle.std.specs.Prelude.{◌≡◌};
ghost use Rattle.table_reader.specs.Derivations.{rows};
ghost use Rattle.source_grammar.specs.Productions as grammar;

use source_grammar::{Context, Level, Listed, Part, Terminal};
use table_reader::Production;

/// The productions of a part.
pub(crate) type Productions = &'static [Production<Terminal, Part>];

/// Productions, each in braces: tokens, and parts in square brackets.
macro_rules! productions {
    ($({ $($symbol:tt)* })*) => {
        &[$(Production { symbols: &[$(crate::table::symbol!($symbol)),*] }),*]
    };
}

/// A part in square brackets, or a token.
macro_rules! symbol {
    ([$($part:tt)*]) => {
        Symbol::Part(Part::$($part)*)
    };
    ($token:ident) => {
        Symbol::Token(Terminal::$token)
    };
}

pub(crate) use productions;
pub(crate) use symbol;

/// The productions of a part.
pub(crate) fn productions_of(part: Part) -> Productions
    ensures { rows result.now ≡ grammar.productions part }
{
    match part {
        Part::Program => items::PROGRAM,
        Part::AfterHash => items::AFTER_HASH,
        Part::Items => items::ITEMS,
        Part::Attribute => items::ATTRIBUTE,
        Part::Attributed => items::ATTRIBUTED,
        Part::Item => items::ITEM,
        Part::Declaration => items::DECLARATION,
        Part::Generics => items::GENERICS,
        Part::Lifetimes => items::LIFETIMES,
        Part::MoreLifetimes => items::MORE_LIFETIMES,
        Part::TypeParameters => items::TYPE_PARAMETERS,
        Part::Parameter => items::PARAMETER,
        Part::Result => items::RESULT,
        Part::StructBody => items::STRUCT_BODY,
        Part::Field => items::FIELD,
        Part::TupleField => items::TUPLE_FIELD,
        Part::Variant => items::VARIANT,
        Part::VariantBody => items::VARIANT_BODY,
        Part::List(Listed::Names) => lists::LIST_NAMES,
        Part::List(Listed::TypeNames) => lists::LIST_TYPE_NAMES,
        Part::List(Listed::Parameters) => lists::LIST_PARAMETERS,
        Part::List(Listed::Fields) => lists::LIST_FIELDS,
        Part::List(Listed::TupleFields) => lists::LIST_TUPLE_FIELDS,
        Part::List(Listed::Variants) => lists::LIST_VARIANTS,
        Part::List(Listed::TypesInAngles) => lists::LIST_TYPES_IN_ANGLES,
        Part::List(Listed::Types) => lists::LIST_TYPES,
        Part::List(Listed::Arguments) => lists::LIST_ARGUMENTS,
        Part::List(Listed::Initials) => lists::LIST_INITIALS,
        Part::List(Listed::Patterns) => lists::LIST_PATTERNS,
        Part::List(Listed::FieldPatterns) => lists::LIST_FIELD_PATTERNS,
        Part::ListRest(Listed::Names) => lists::LIST_REST_NAMES,
        Part::ListRest(Listed::TypeNames) => lists::LIST_REST_TYPE_NAMES,
        Part::ListRest(Listed::Parameters) => lists::LIST_REST_PARAMETERS,
        Part::ListRest(Listed::Fields) => lists::LIST_REST_FIELDS,
        Part::ListRest(Listed::TupleFields) => lists::LIST_REST_TUPLE_FIELDS,
        Part::ListRest(Listed::Variants) => lists::LIST_REST_VARIANTS,
        Part::ListRest(Listed::TypesInAngles) => lists::LIST_REST_TYPES_IN_ANGLES,
        Part::ListRest(Listed::Types) => lists::LIST_REST_TYPES,
        Part::ListRest(Listed::Arguments) => lists::LIST_REST_ARGUMENTS,
        Part::ListRest(Listed::Initials) => lists::LIST_REST_INITIALS,
        Part::ListRest(Listed::Patterns) => lists::LIST_REST_PATTERNS,
        Part::ListRest(Listed::FieldPatterns) => lists::LIST_REST_FIELD_PATTERNS,
        Part::Type => types::TYPE,
        Part::BorrowLifetime => types::BORROW_LIFETIME,
        Part::BorrowMut => types::BORROW_MUT,
        Part::TypeArguments => types::TYPE_ARGUMENTS,
        Part::AfterTypeOpen => types::AFTER_TYPE_OPEN,
        Part::AfterType => types::AFTER_TYPE,
        Part::Block => blocks::BLOCK,
        Part::Statements => blocks::STATEMENTS,
        Part::MoreStatements => blocks::MORE_STATEMENTS,
        Part::AfterBlockLike => blocks::AFTER_BLOCK_LIKE,
        Part::AfterExpression => blocks::AFTER_EXPRESSION,
        Part::LetType => blocks::LET_TYPE,
        Part::LetValue => blocks::LET_VALUE,
        Part::BlockLike => blocks::BLOCK_LIKE,
        Part::AfterWhile => blocks::AFTER_WHILE,
        Part::If => blocks::IF,
        Part::AfterIf => blocks::AFTER_IF,
        Part::Else => blocks::ELSE,
        Part::AfterElse => blocks::AFTER_ELSE,
        Part::Arms => blocks::ARMS,
        Part::ArmBody => blocks::ARM_BODY,
        Part::AfterBlockArm => blocks::AFTER_BLOCK_ARM,
        Part::AfterArm => blocks::AFTER_ARM,
        Part::Expression(Context::Free) => expressions::EXPRESSION_FREE,
        Part::Expression(Context::Condition) => expressions::EXPRESSION_CONDITION,
        Part::LeadingExpression => expressions::LEADING_EXPRESSION,
        Part::Operand => expressions::OPERAND,
        Part::MoreAssign(Context::Free) => expressions::MORE_ASSIGN_FREE,
        Part::MoreAssign(Context::Condition) => expressions::MORE_ASSIGN_CONDITION,
        Part::Level(Level::Or, Context::Free) => expressions::LEVEL_OR_FREE,
        Part::Level(Level::Or, Context::Condition) => expressions::LEVEL_OR_CONDITION,
        Part::Level(Level::And, Context::Free) => expressions::LEVEL_AND_FREE,
        Part::Level(Level::And, Context::Condition) => expressions::LEVEL_AND_CONDITION,
        Part::Level(Level::Compare, Context::Free) => expressions::LEVEL_COMPARE_FREE,
        Part::Level(Level::Compare, Context::Condition) => expressions::LEVEL_COMPARE_CONDITION,
        Part::Level(Level::BitOr, Context::Free) => expressions::LEVEL_BIT_OR_FREE,
        Part::Level(Level::BitOr, Context::Condition) => expressions::LEVEL_BIT_OR_CONDITION,
        Part::Level(Level::Xor, Context::Free) => expressions::LEVEL_XOR_FREE,
        Part::Level(Level::Xor, Context::Condition) => expressions::LEVEL_XOR_CONDITION,
        Part::Level(Level::BitAnd, Context::Free) => expressions::LEVEL_BIT_AND_FREE,
        Part::Level(Level::BitAnd, Context::Condition) => expressions::LEVEL_BIT_AND_CONDITION,
        Part::Level(Level::Shift, Context::Free) => expressions::LEVEL_SHIFT_FREE,
        Part::Level(Level::Shift, Context::Condition) => expressions::LEVEL_SHIFT_CONDITION,
        Part::Level(Level::Sum, Context::Free) => expressions::LEVEL_SUM_FREE,
        Part::Level(Level::Sum, Context::Condition) => expressions::LEVEL_SUM_CONDITION,
        Part::Level(Level::Product, Context::Free) => expressions::LEVEL_PRODUCT_FREE,
        Part::Level(Level::Product, Context::Condition) => expressions::LEVEL_PRODUCT_CONDITION,
        Part::LeadingLevel(Level::Or) => expressions::LEADING_LEVEL_OR,
        Part::LeadingLevel(Level::And) => expressions::LEADING_LEVEL_AND,
        Part::LeadingLevel(Level::Compare) => expressions::LEADING_LEVEL_COMPARE,
        Part::LeadingLevel(Level::BitOr) => expressions::LEADING_LEVEL_BIT_OR,
        Part::LeadingLevel(Level::Xor) => expressions::LEADING_LEVEL_XOR,
        Part::LeadingLevel(Level::BitAnd) => expressions::LEADING_LEVEL_BIT_AND,
        Part::LeadingLevel(Level::Shift) => expressions::LEADING_LEVEL_SHIFT,
        Part::LeadingLevel(Level::Sum) => expressions::LEADING_LEVEL_SUM,
        Part::LeadingLevel(Level::Product) => expressions::LEADING_LEVEL_PRODUCT,
        Part::More(Level::Or, Context::Free) => expressions::MORE_OR_FREE,
        Part::More(Level::Or, Context::Condition) => expressions::MORE_OR_CONDITION,
        Part::More(Level::And, Context::Free) => expressions::MORE_AND_FREE,
        Part::More(Level::And, Context::Condition) => expressions::MORE_AND_CONDITION,
        Part::More(Level::Compare, Context::Free) => expressions::MORE_COMPARE_FREE,
        Part::More(Level::Compare, Context::Condition) => expressions::MORE_COMPARE_CONDITION,
        Part::More(Level::BitOr, Context::Free) => expressions::MORE_BIT_OR_FREE,
        Part::More(Level::BitOr, Context::Condition) => expressions::MORE_BIT_OR_CONDITION,
        Part::More(Level::Xor, Context::Free) => expressions::MORE_XOR_FREE,
        Part::More(Level::Xor, Context::Condition) => expressions::MORE_XOR_CONDITION,
        Part::More(Level::BitAnd, Context::Free) => expressions::MORE_BIT_AND_FREE,
        Part::More(Level::BitAnd, Context::Condition) => expressions::MORE_BIT_AND_CONDITION,
        Part::More(Level::Shift, Context::Free) => expressions::MORE_SHIFT_FREE,
        Part::More(Level::Shift, Context::Condition) => expressions::MORE_SHIFT_CONDITION,
        Part::More(Level::Sum, Context::Free) => expressions::MORE_SUM_FREE,
        Part::More(Level::Sum, Context::Condition) => expressions::MORE_SUM_CONDITION,
        Part::More(Level::Product, Context::Free) => expressions::MORE_PRODUCT_FREE,
        Part::More(Level::Product, Context::Condition) => expressions::MORE_PRODUCT_CONDITION,
        Part::Cast(Context::Free) => expressions::CAST_FREE,
        Part::Cast(Context::Condition) => expressions::CAST_CONDITION,
        Part::LeadingCast => expressions::LEADING_CAST,
        Part::MoreCasts => expressions::MORE_CASTS,
        Part::Unary(Context::Free) => expressions::UNARY_FREE,
        Part::Unary(Context::Condition) => expressions::UNARY_CONDITION,
        Part::LeadingUnary => expressions::LEADING_UNARY,
        Part::Borrowed(Context::Free) => expressions::BORROWED_FREE,
        Part::Borrowed(Context::Condition) => expressions::BORROWED_CONDITION,
        Part::Postfix => expressions::POSTFIX,
        Part::FieldName => expressions::FIELD_NAME,
        Part::Core(Context::Free) => expressions::CORE_FREE,
        Part::Core(Context::Condition) => expressions::CORE_CONDITION,
        Part::AfterOpen => expressions::AFTER_OPEN,
        Part::AfterFirst => expressions::AFTER_FIRST,
        Part::Initial => expressions::INITIAL,
        Part::InitialValue => expressions::INITIAL_VALUE,
        Part::AfterName(Context::Free) => paths::AFTER_NAME_FREE,
        Part::AfterName(Context::Condition) => paths::AFTER_NAME_CONDITION,
        Part::AfterPanic(Context::Free) => paths::AFTER_PANIC_FREE,
        Part::AfterPanic(Context::Condition) => paths::AFTER_PANIC_CONDITION,
        Part::AfterAssert(Context::Free) => paths::AFTER_ASSERT_FREE,
        Part::AfterAssert(Context::Condition) => paths::AFTER_ASSERT_CONDITION,
        Part::AfterMem(Context::Free) => paths::AFTER_MEM_FREE,
        Part::AfterMem(Context::Condition) => paths::AFTER_MEM_CONDITION,
        Part::AfterStd(Context::Free) => paths::AFTER_STD_FREE,
        Part::AfterStd(Context::Condition) => paths::AFTER_STD_CONDITION,
        Part::NameMore(Context::Free) => paths::NAME_MORE_FREE,
        Part::NameMore(Context::Condition) => paths::NAME_MORE_CONDITION,
        Part::Applied(Context::Free) => paths::APPLIED_FREE,
        Part::Applied(Context::Condition) => paths::APPLIED_CONDITION,
        Part::AfterColons(Context::Free) => paths::AFTER_COLONS_FREE,
        Part::AfterColons(Context::Condition) => paths::AFTER_COLONS_CONDITION,
        Part::AfterMemColons(Context::Free) => paths::AFTER_MEM_COLONS_FREE,
        Part::AfterMemColons(Context::Condition) => paths::AFTER_MEM_COLONS_CONDITION,
        Part::AfterStdColons(Context::Free) => paths::AFTER_STD_COLONS_FREE,
        Part::AfterStdColons(Context::Condition) => paths::AFTER_STD_COLONS_CONDITION,
        Part::AfterStdMem => paths::AFTER_STD_MEM,
        Part::AfterStdMemColons => paths::AFTER_STD_MEM_COLONS,
        Part::AfterTurbo(Context::Free) => paths::AFTER_TURBO_FREE,
        Part::AfterTurbo(Context::Condition) => paths::AFTER_TURBO_CONDITION,
        Part::AfterPath => paths::AFTER_PATH,
        Part::Message => paths::MESSAGE,
        Part::AssertEnd => paths::ASSERT_END,
        Part::AfterAssertComma => paths::AFTER_ASSERT_COMMA,
        Part::AfterMessage => paths::AFTER_MESSAGE,
        Part::Pattern => patterns::PATTERN,
        Part::AfterPatternOpen => patterns::AFTER_PATTERN_OPEN,
        Part::AfterPattern => patterns::AFTER_PATTERN,
        Part::FieldPattern => patterns::FIELD_PATTERN,
        Part::FieldPatternValue => patterns::FIELD_PATTERN_VALUE,
        Part::PatternParts => patterns::PATTERN_PARTS,
        Part::GivenParts => patterns::GIVEN_PARTS,
        Part::AfterPatternName => patterns::AFTER_PATTERN_NAME,
        Part::AfterPatternMem => patterns::AFTER_PATTERN_MEM,
        Part::AfterPatternStd => patterns::AFTER_PATTERN_STD,
        Part::AfterPatternColons => patterns::AFTER_PATTERN_COLONS,
        Part::AfterPatternMemColons => patterns::AFTER_PATTERN_MEM_COLONS,
        Part::AfterPatternStdColons => patterns::AFTER_PATTERN_STD_COLONS,
        Part::AfterPatternStdMem => patterns::AFTER_PATTERN_STD_MEM,
    }
}
