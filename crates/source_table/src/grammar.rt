use crate::table::productions_of;
use crate::takes::taken;
use source_grammar::{Lexeme, Part, Terminal};
use table_reader::{Grammar, Production, Take};

/// The grammar of sources.
pub struct SourceGrammar;

impl Grammar for SourceGrammar {
    ghost use Rattle.source_grammar.specs.Lexemes as spec;
    ghost use Rattle.source_grammar.specs.Productions as table;
    ghost use Rattle.source_table.specs.Fit.{fits};

    type Lexeme = Lexeme;

    type Terminal = Terminal;

    type Part = Part;

    ghost takes = { spec.takes };

    ghost productions = { table.productions };

    ghost rank = { table.rank };

    ghost weight = { spec.weight };

    fn takes(terminal: Terminal, lexeme: &Lexeme) -> Take<Lexeme> {
        taken(terminal, lexeme)
    }

    fn productions(part: Part) -> &'static [Production<Terminal, Part>] {
        productions_of(part)
    }

    fn rank() -> usize {
        14
    }

    ghost fits = { fits };
}
