use aen_base::Num;
use pure_ast::Term;

/// What a use of a source variable is translated to: a variable of the code, or a number.
#[derive(Clone, Copy, Debug)]
pub enum Atom {
    /// A variable of the code.
    Variable(u32),
    /// A number.
    Number(Num),
}

impl Atom {
    ghost use Rattle.std.specs.Prelude.{◌≡◌};
    ghost use Rattle.translate.specs.Emit as spec;

    /// The atom as a term.
    pub fn term(self) -> Term
        ensures { result ≡ spec.term_of self }
    {
        match self {
            Atom::Variable(variable) => Term::var(variable),
            Atom::Number(number) => Term::literal(number),
        }
    }
}
