//! Primitives. Written by tools/grammar.py.

use crate::part::Part;
use crate::table::{Productions, productions};
use crate::terminal::Terminal;
use table_reader::{Production, Symbol};

pub(crate) const PRIMITIVE: Productions = productions! {
    { Int Dot IntOperator }
    { Bool Dot BoolOperator }
    { Cast Dot [CastFrom] }
    { Box Dot New }
    { Mem Dot [InMemory] }
};

pub(crate) const CAST_FROM: Productions = productions! {
    { Int Dot Int }
    { Bool Dot Int }
};

pub(crate) const IN_MEMORY: Productions = productions! {
    { Replace [ReplaceEnd] }
    { Swap [SwapEnd] }
};

pub(crate) const REPLACE_END: Productions = productions! {
    {}
    { Dot BackZero }
};

pub(crate) const SWAP_END: Productions = productions! {
    {}
    { Dot [SwapRegion] }
};

pub(crate) const SWAP_REGION: Productions = productions! {
    { BackZero }
    { BackOne }
};
