//! Paths and their type arguments.

ghost use Rattle.std.specs.Prelude.{◌≡◌};
ghost use Rattle.rust_ast.specs.SourceTypes as tree;
ghost use Rattle.source_ways.specs.PathNodes as spec;
ghost use Rattle.source_ways.specs.Spans.{from_to};

use crate::front_list::FrontList;
use crate::says::is_class;
use aen_base::Span;
use rust_ast::Ident;
use rust_ast::source_types::{Path, PathNode, Turbo, TurboNode, Written};
use source_grammar::Class;

/// No type arguments.
pub fn no_turbo() -> Turbo
    ensures { result ≡ tree.no_turbo }
{
    Turbo {
        node: TurboNode::NoTurbo,
    }
}

/// These type arguments.
pub fn turbo(types: FrontList<Written>) -> Turbo
    ensures { result ≡ tree.turbo (tree.writtens types) }
{
    Turbo {
        node: TurboNode::Turbo(types.into_list()),
    }
}

/// A path of one name.
pub fn one(name: Ident) -> Path
    ensures { result ≡ tree.one name }
{
    Path {
        node: PathNode::One(name),
    }
}

/// A path of two names, with the first's type arguments.
pub fn two(name: Ident, arguments: Turbo, second: Ident) -> Path
    ensures { result ≡ tree.two name arguments second }
{
    Path {
        node: PathNode::Two(name, arguments, second),
    }
}

/// The path `Box::new`, from where `Box` stands to where `new` stands.
pub fn box_new(first: Span, last: Span) -> Path
    ensures { result ≡ tree.box_new (from_to first.lo last.hi) }
{
    Path {
        node: PathNode::BoxNew(Span {
            lo: first.lo,
            hi: last.hi,
        }),
    }
}

/// `mem::swap` or `mem::replace`: the last word, the span of the path and of `mem`, and whether
/// `std::` stands before.
pub fn built_in(word: Class, path: Span, mem: Span, after_std: bool) -> Path
    ensures { result ≡ spec.built_in word path mem after_std }
{
    let node = if is_class(word, Class::Swap) {
        PathNode::MemSwap(path, mem, after_std)
    } else {
        PathNode::MemReplace(path, mem, after_std)
    };
    Path { node }
}
