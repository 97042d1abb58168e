ghost use Rattle.std.specs.Prelude.{◌≡◌, IfOk};

use crate::building::build_part;
use aen_base::NoMem;
use raw_values::{Stack, Value};
use std::alloc::Global;
use table_reader::{Builds, Grammar, Production, Take};
use text_table::{Lexeme, Part, Terminal, TextGrammar};

/// The grammar of printed texts, whose parts are read as what is spelled.
pub struct TextReader;

impl Grammar for TextReader {
    ghost use Rattle.text_table.specs.Lexemes as spec;
    ghost use Rattle.text_table.specs.Productions as table;
    ghost use Rattle.text_table.specs.Fit.{fits};

    type Lexeme = Lexeme;

    type Terminal = Terminal;

    type Part = Part;

    ghost takes = { spec.takes };

    ghost productions = { table.productions };

    ghost rank = { table.rank };

    ghost weight = { spec.weight };

    fn takes(terminal: Terminal, lexeme: &Lexeme) -> Take<Lexeme> {
        TextGrammar::takes(terminal, lexeme)
    }

    fn productions(part: Part) -> &'static [Production<Terminal, Part>] {
        TextGrammar::productions(part)
    }

    fn rank() -> usize {
        TextGrammar::rank()
    }

    ghost fits = { fits };
}

impl Builds for TextReader {
    ghost use Rattle.raw_values.specs.Carriers as carriers;
    ghost use Rattle.raw_ways.specs.Made as made_of;
    ghost use Rattle.raw_ways.specs.Makes as makes;

    type Value = Value;

    ghost carrier = { carriers.carrier };

    ghost made = { makes.made };

    ghost held = { carriers.held };

    fn copy(alloc: Global, lexeme: &Lexeme) -> Result<Lexeme, NoMem> {
        copied(alloc, lexeme)
    }

    fn build(alloc: Global, part: Part, index: usize, values: &mut Stack) -> Result<Value, NoMem> {
        build_part(alloc, part, index, values)
    }

    ghost same_productions = { made_of.same_productions };
}

/// A copy of a lexeme. The only error is want of memory.
fn copied(alloc: Global, lexeme: &Lexeme) -> Result<Lexeme, NoMem>
    ensures { IfOk result (λ it. it ≡ lexeme.now) }
{
    let text = lexeme.text.try_clone(alloc)?;
    Ok(Lexeme {
        class: lexeme.class,
        span: lexeme.span,
        text,
    })
}
