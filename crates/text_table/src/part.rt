//! Parts of the grammar (nonterminals). Written by tools/grammar.py.

/// A part of the grammar, which consists of tokens.
#[derive(Clone, Copy, Debug)]
pub enum Part {
    /// `text`
    Text,
    /// `type*`
    Types,
    /// `type`
    Declaration,
    /// `("(" id ":" "Type" ")")*`
    TypeParameters,
    /// `("|" id ":" (aty "→")* id id*)*`
    Variants,
    /// `(aty "→")* id id*`: whether an id is a type or the end shows after it
    VariantType,
    /// The same after that id.
    VariantEnd,
    /// `id*`
    Names,
    /// `("(" id ":" aty ")")*`
    Fields,
    /// `aty`
    Type,
    /// An `aty` that is no id.
    OtherType,
    /// An `aty` after its `(`.
    TypeInBrackets,
    /// An `aty` after its `(` and an id, which may be the first part of a product.
    AfterTypeName,
    /// `aty* ")"`
    TypeArguments,
    /// `("×" aty)* ")"`
    Factors,
    /// `def*`
    Definitions,
    /// `def`
    Definition,
    /// `"(" "n" ":" "Nat" ")"`
    FuelParameter,
    /// `"match" "n" "with" "|" "0" "=>" "outOfFuel" "|" "n" "+" "1" "=>" "do"`
    FuelMatch,
    /// `dname`
    DefinitionName,
    /// `("." "loop"k)? ("." "back"k)?`
    NameEnd,
    /// The same after its first dot.
    NamePart,
    /// `("." "back"k)?`
    BackEnd,
    /// `("{" id ":" "Type" "}")*`
    ImplicitParameters,
    /// `("(" var ":" aty ")")*`
    Parameters,
    /// `code`
    Code,
    /// Code after `let` and its variable.
    Bound,
    /// `arm* ")"`
    Arms,
    /// `pat`
    Pattern,
    /// `("," var)* ")"`
    PatternParts,
    /// `var*`
    Variables,
    /// `comp`
    Computation,
    /// `prim`
    Primitive,
    /// A cast after its first dot.
    CastFrom,
    /// A primitive after `mem` and its dot.
    InMemory,
    /// What follows `mem.replace`.
    ReplaceEnd,
    /// What follows `mem.swap`.
    SwapEnd,
    /// The same after its dot.
    SwapRegion,
    /// `atom`
    Atom,
    /// An `atom` that is no `cname`.
    PlainAtom,
    /// `cname`
    Constructor,
    /// A constructor after `Exit` and its dot.
    ExitVariant,
    /// An `atom` after its `(`: a tuple, or a constructor with parts.
    AtomInBrackets,
    /// The same after a constructor, which may be the first part of a tuple.
    AfterConstructor,
    /// `("," atom)* ")"`
    TupleParts,
    /// `atom* ")"`
    Arguments,
    /// `atom*`
    Atoms,
}
