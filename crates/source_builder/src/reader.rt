use crate::building::build_part;
use crate::copying::copied;
use aen_base::NoMem;
use source_grammar::{Lexeme, Part, Terminal};
use source_table::SourceGrammar;
use source_values::{Stack, Value};
use std::alloc::Global;
use table_reader::{Builds, Grammar, Production, Take};

/// The grammar of sources, whose productions build the tree.
pub struct SourceReader;

impl Grammar for SourceReader {
    ghost use Rattle.source_grammar.specs.Lexemes as spec;
    ghost use Rattle.source_grammar.specs.Productions as table;
    ghost use Rattle.source_table.specs.Fit.{fits};

    type Lexeme = Lexeme;

    type Terminal = Terminal;

    type Part = Part;

    ghost takes = { spec.takes };

    ghost productions = { table.productions };

    ghost rank = { table.rank };

    ghost weight = { spec.weight };

    fn takes(terminal: Terminal, lexeme: &Lexeme) -> Take<Lexeme> {
        SourceGrammar::takes(terminal, lexeme)
    }

    fn productions(part: Part) -> &'static [Production<Terminal, Part>] {
        SourceGrammar::productions(part)
    }

    fn rank() -> usize {
        SourceGrammar::rank()
    }

    ghost fits = { fits };
}

impl Builds for SourceReader {
    ghost use Rattle.source_ways.specs.Carriers.{Carrier};
    ghost use Rattle.source_ways.specs.Reading as reading;
    ghost use Rattle.source_ways.specs.Made as made_of;
    ghost use Rattle.source_values.specs.Held as holding;

    type Value = Value;

    ghost carrier = { Carrier };

    ghost made = { reading.made };

    ghost held = { holding.held };

    fn copy(alloc: Global, lexeme: &Lexeme) -> Result<Lexeme, NoMem> {
        copied(alloc, lexeme)
    }

    fn build(alloc: Global, part: Part, index: usize, values: &mut Stack) -> Result<Value, NoMem> {
        build_part(alloc, part, index, values)
    }

    ghost same_productions = { made_of.same_productions };
}
