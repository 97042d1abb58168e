//! Atoms. Written by tools/grammar.py.

use crate::part::Part;
use crate::table::{Productions, productions};
use crate::terminal::Terminal;
use table_reader::{Production, Symbol};

pub(crate) const ATOM: Productions = productions! {
    { [PlainAtom] }
    { [Constructor] }
};

pub(crate) const PLAIN_ATOM: Productions = productions! {
    { Variable }
    { Number Hash Int }
    { Truth }
    { UnitValue }
    { OpenBracket [AtomInBrackets] }
};

pub(crate) const CONSTRUCTOR: Productions = productions! {
    { Name Dot Name }
    { Exit Dot [ExitVariant] }
};

pub(crate) const EXIT_VARIANT: Productions = productions! {
    { Brk }
    { Ret }
};

pub(crate) const ATOM_IN_BRACKETS: Productions = productions! {
    { [PlainAtom] Comma [Atom] [TupleParts] }
    { [Constructor] [AfterConstructor] }
};

pub(crate) const AFTER_CONSTRUCTOR: Productions = productions! {
    { [Atom] [Arguments] }
    { Comma [Atom] [TupleParts] }
};

pub(crate) const TUPLE_PARTS: Productions = productions! {
    { CloseBracket }
    { Comma [Atom] [TupleParts] }
};

pub(crate) const ARGUMENTS: Productions = productions! {
    { CloseBracket }
    { [Atom] [Arguments] }
};

pub(crate) const ATOMS: Productions = productions! {
    {}
    { [Atom] [Atoms] }
};
