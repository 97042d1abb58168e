ghost use Rattle.raw_forms.specs.Formed.{
  AtomsAreFormed,
  CodesAreFormed,
  TextsAreFormed,
  TypesAreFormed,
};

/// A law: a type in which no rule is broken stands for one that is well-formed under any definitions
/// that declare the same.
pub fn types_are_formed()
    ensures { TypesAreFormed }
{}

/// A law: an atom in which no rule is broken stands for a term that is well-formed under any definitions
/// that declare the same.
pub fn atoms_are_formed()
    ensures { AtomsAreFormed }
{}

/// A law: code in which no rule is broken stands for code that is well-formed under any definitions that
/// declare the same.
pub fn codes_are_formed()
    ensures { CodesAreFormed }
{}

/// A law: a text in which no rule is broken stands for well-formed definitions.
pub fn texts_are_formed()
    ensures { TextsAreFormed }
{}
