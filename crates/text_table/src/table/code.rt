//! Code. Written by tools/grammar.py.

use crate::part::Part;
use crate::table::{Productions, productions};
use crate::terminal::Terminal;
use table_reader::{Production, Symbol};

pub(crate) const CODE: Productions = productions! {
    { Let Variable [Bound] }
    { OpenBracket Match [Atom] With [Arms] }
    { [Computation] }
};

pub(crate) const BOUND: Productions = productions! {
    { From [Computation] Semicolon [Code] }
    { Becomes [Atom] Semicolon [Code] }
};

pub(crate) const ARMS: Productions = productions! {
    { CloseBracket }
    { Bar [Pattern] Gives Do [Code] [Arms] }
};

pub(crate) const PATTERN: Productions = productions! {
    { Truth }
    { OpenBracket Variable Comma Variable [PatternParts] }
    { [Constructor] [Variables] }
};

pub(crate) const PATTERN_PARTS: Productions = productions! {
    { CloseBracket }
    { Comma Variable [PatternParts] }
};

pub(crate) const VARIABLES: Productions = productions! {
    {}
    { Variable [Variables] }
};

pub(crate) const COMPUTATION: Productions = productions! {
    { Ok [Atom] }
    { Fail }
    { [DefinitionName] Fuel [Atoms] }
    { [Primitive] [Atoms] }
};
