//! Definitions. Written by tools/grammar.py.

use crate::part::Part;
use crate::table::{Productions, productions};
use crate::terminal::Terminal;
use table_reader::{Production, Symbol};

pub(crate) const DEFINITIONS: Productions = productions! {
    {}
    { [Definition] [Definitions] }
};

pub(crate) const DEFINITION: Productions = productions! {
    { Def [DefinitionName] [ImplicitParameters] [FuelParameter] [Parameters] Colon Result [Type] Becomes [FuelMatch] [Code] }
};

pub(crate) const FUEL_PARAMETER: Productions = productions! {
    { OpenBracket Fuel Colon Nat CloseBracket }
};

pub(crate) const FUEL_MATCH: Productions = productions! {
    { Match Fuel With Bar Zero Gives OutOfFuel Bar Fuel Plus One Gives Do }
};

pub(crate) const DEFINITION_NAME: Productions = productions! {
    { Fn Dot Name [NameEnd] }
};

pub(crate) const NAME_END: Productions = productions! {
    {}
    { Dot [NamePart] }
};

pub(crate) const NAME_PART: Productions = productions! {
    { LoopNumber [BackEnd] }
    { Back }
};

pub(crate) const BACK_END: Productions = productions! {
    {}
    { Dot Back }
};

pub(crate) const IMPLICIT_PARAMETERS: Productions = productions! {
    {}
    { OpenBrace Name Colon Type CloseBrace [ImplicitParameters] }
};

pub(crate) const PARAMETERS: Productions = productions! {
    {}
    { OpenBracket Variable Colon [Type] CloseBracket [Parameters] }
};
