//! Parts of the grammar (nonterminals). Written by tools/grammar.py.

/// Where an expression stands.
#[derive(Clone, Copy, Debug)]
pub enum Context {
    /// Where struct braces may follow a name.
    Free,
    /// In a condition outside all brackets, where they may not.
    Condition,
}

/// A level of binary operators that stand between operands.
#[derive(Clone, Copy, Debug)]
pub enum Level {
    /// `||`
    Or,
    /// `&&`
    And,
    /// Comparisons, of which one alone may stand.
    Compare,
    /// `|`
    BitOr,
    /// `^`
    Xor,
    /// `&`
    BitAnd,
    /// Shifts.
    Shift,
    /// Sums and differences.
    Sum,
    /// Products, quotients and remainders.
    Product,
}

/// What stands in a list with commas up to a closing mark.
#[derive(Clone, Copy, Debug)]
pub enum Listed {
    /// Identifiers up to `)`.
    Names,
    /// Identifiers up to `>`.
    TypeNames,
    /// Parameters of a function up to `)`.
    Parameters,
    /// Fields with names up to `}`.
    Fields,
    /// Fields without names up to `)`.
    TupleFields,
    /// Variants up to `}`.
    Variants,
    /// Types up to `>`.
    TypesInAngles,
    /// Types up to `)`.
    Types,
    /// Expressions up to `)`.
    Arguments,
    /// Fields with their values up to `}`.
    Initials,
    /// Patterns up to `)`.
    Patterns,
    /// Fields with their patterns up to `}`.
    FieldPatterns,
}

/// A part of the grammar, which consists of tokens.
#[derive(Clone, Copy, Debug)]
pub enum Part {
    /// A whole program: `Inner* Item*`.
    Program,
    /// After its first `#`: an inner attribute, or one of the first item.
    AfterHash,
    /// `Item*`
    Items,
    /// An attribute after its `#`.
    Attribute,
    /// What an attribute is of.
    Attributed,
    /// An item without attributes.
    Item,
    /// `Fn | Struct | Enum`
    Declaration,
    /// `("<" List(Lifetime | Identifier) ">")?`
    Generics,
    /// Lifetimes, and then type parameters, up to `>`.
    Lifetimes,
    /// What follows a lifetime there.
    MoreLifetimes,
    /// `TypeParameters?`
    TypeParameters,
    /// A parameter of a function.
    Parameter,
    /// `("->" Type)?`
    Result,
    /// The fields of a struct.
    StructBody,
    /// `"pub"? Identifier ":" Type`
    Field,
    /// `"pub"? Type`
    TupleField,
    /// A variant of an enum.
    Variant,
    /// `("(" List(Type) ")")?`
    VariantBody,
    /// `List(X)` and its closing mark.
    List(Listed),
    /// What follows an item of it.
    ListRest(Listed),
    /// A type.
    Type,
    /// `Lifetime?`
    BorrowLifetime,
    /// `"mut"?`
    BorrowMut,
    /// `("<" List(Type) ">")?`
    TypeArguments,
    /// A type after its `(`.
    AfterTypeOpen,
    /// The same after its first type.
    AfterType,
    /// A block.
    Block,
    /// What is left of a block.
    Statements,
    /// The same, where it isn't over.
    MoreStatements,
    /// What is left of a block after a statement that ends at its last brace.
    AfterBlockLike,
    /// What is left of a block after an expression.
    AfterExpression,
    /// `(":" Type)?`
    LetType,
    /// `("=" Expression)?`
    LetValue,
    /// An expression that ends at its last brace.
    BlockLike,
    /// A `while` after this word.
    AfterWhile,
    /// An `if`.
    If,
    /// The same after this word.
    AfterIf,
    /// `("else" (If | Block))?`
    Else,
    /// The same after this word.
    AfterElse,
    /// Arms up to `}`.
    Arms,
    /// The body of an arm, and what is left of the arms.
    ArmBody,
    /// What is left of the arms after a body that ends at its last brace.
    AfterBlockArm,
    /// What is left of the arms after another body.
    AfterArm,
    /// An expression. In a condition a block follows, so `return` and `break` have an operand there.
    Expression(Context),
    /// An expression that begins a statement or the body of an arm, and with no part that ends at its last brace.
    LeadingExpression,
    /// `Expression?`
    Operand,
    /// What makes an assignment.
    MoreAssign(Context),
    /// Operands of a level and its operators between them.
    Level(Level, Context),
    /// The same at the beginning of a statement or of an arm's body.
    LeadingLevel(Level),
    /// What follows the first operand.
    More(Level, Context),
    /// An operand with casts.
    Cast(Context),
    /// The same at the beginning of a statement or of an arm's body.
    LeadingCast,
    /// `("as" Int)*`
    MoreCasts,
    /// An operand with unary operators and fields.
    Unary(Context),
    /// The same at the beginning of a statement or of an arm's body.
    LeadingUnary,
    /// A borrow after its `&`.
    Borrowed(Context),
    /// `("." (Identifier | Digits))*`
    Postfix,
    /// A field by its name or number.
    FieldName,
    /// An operand without unary operators, fields, and braces at its end.
    Core(Context),
    /// An expression in brackets, after `(`.
    AfterOpen,
    /// The same after its first expression.
    AfterFirst,
    /// `Identifier (":" Expression)?`
    Initial,
    /// `(":" Expression)?`
    InitialValue,
    /// What follows the first identifier of a path.
    AfterName(Context),
    /// The same after `panic` or `unreachable`.
    AfterPanic(Context),
    /// The same after `assert`.
    AfterAssert(Context),
    /// The same after `mem`.
    AfterMem(Context),
    /// The same after `std`.
    AfterStd(Context),
    /// What follows an identifier that does not stand alone.
    NameMore(Context),
    /// What a path is applied to.
    Applied(Context),
    /// What follows an identifier and `::`.
    AfterColons(Context),
    /// The same after `mem` and `::`.
    AfterMemColons(Context),
    /// The same after `std` and `::`.
    AfterStdColons(Context),
    /// What follows `std::mem`.
    AfterStdMem,
    /// What follows `std::mem::`.
    AfterStdMemColons,
    /// What follows an identifier and types after it.
    AfterTurbo(Context),
    /// What follows a path's last identifier.
    AfterPath,
    /// `String? ")"`
    Message,
    /// `("," String)? ","? ")"`
    AssertEnd,
    /// The same after a comma.
    AfterAssertComma,
    /// The same after the string.
    AfterMessage,
    /// A pattern.
    Pattern,
    /// A pattern in brackets, after `(`.
    AfterPatternOpen,
    /// The same after its first pattern.
    AfterPattern,
    /// `Identifier (":" Pattern)?`
    FieldPattern,
    /// `(":" Pattern)?`
    FieldPatternValue,
    /// The parts of a constructor, or none.
    PatternParts,
    /// The parts of a constructor.
    GivenParts,
    /// What follows the first identifier of a pattern.
    AfterPatternName,
    /// The same after `mem`.
    AfterPatternMem,
    /// The same after `std`.
    AfterPatternStd,
    /// What follows an identifier and `::`.
    AfterPatternColons,
    /// The same after `mem` and `::`.
    AfterPatternMemColons,
    /// The same after `std` and `::`.
    AfterPatternStdColons,
    /// What follows `std::mem`.
    AfterPatternStdMem,
}
