use crate::lexeme::Lexeme;
use crate::part::Part;
use crate::table::productions_of;
use crate::takes::taken;
use crate::terminal::Terminal;
use table_reader::{Grammar, Production, Take};

/// The grammar of printed texts.
pub struct TextGrammar;

impl Grammar for TextGrammar {
    ghost use Rattle.text_table.specs.Lexemes as spec;
    ghost use Rattle.text_table.specs.Productions as table;
    ghost use Rattle.text_table.specs.Fit.{fits};

    type Lexeme = Lexeme;

    type Terminal = Terminal;

    type Part = Part;

    ghost takes = { spec.takes };

    ghost productions = { table.productions };

    ghost rank = { table.rank };

    ghost weight = { spec.weight };

    fn takes(terminal: Terminal, lexeme: &Lexeme) -> Take<Lexeme> {
        taken(terminal, lexeme)
    }

    fn productions(part: Part) -> &'static [Production<Terminal, Part>] {
        productions_of(part)
    }

    fn rank() -> usize {
        2
    }

    ghost fits = { fits };
}
