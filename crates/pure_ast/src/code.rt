ghost use Rattle.std.specs.Prelude.{◌≡◌, ◌+◌, ◌<◌, length, IfOk};
ghost use Rattle.pure_ast.specs.Code as codes;

use crate::{Comp, Pat, Term};
use aen_base::{Boxed, List, NoMem};
use std::alloc::Global;
use std::marker::Model;

/// The code of a definition. Contracts see it as `Code` of `specs/Code.antt`.
#[cycle(code)]
pub struct Code {
    pub node: CodeNode,
}

/// Code is dropped in a loop, however long its chains of binds and however deep its matches. The
/// arms that are left to drop stand in one list; where a match has arms of its own, that list waits
/// in the place of the first of them, which is dropped next.
impl Drop for Code {
    fn drop(mut self) {
        let mut left: Option<List<(Pat, Code)>> = None;
        loop {
            let Code { node } = self;
            match node {
                CodeNode::Bind(_, _comp, rest) => self = rest.into_inner(),
                CodeNode::Let(_, _term, rest) => self = rest.into_inner(),
                CodeNode::Last(_comp) => match left {
                    None => return,
                    Some(waiting) => {
                        let mut more = waiting;
                        let Some((_pat, next)) = more.pop() else {
                            return;
                        };
                        self = next;
                        left = Some(more);
                    }
                },
                CodeNode::Match(term, arms) => match left {
                    None => {
                        let mut more = arms;
                        let Some((_pat, next)) = more.pop() else {
                            return;
                        };
                        self = next;
                        left = Some(more);
                    }
                    Some(waiting) => {
                        if arms.is_empty() {
                            let mut more = waiting;
                            let Some((_pat, next)) = more.pop() else {
                                return;
                            };
                            self = next;
                            left = Some(more);
                        } else if waiting.is_empty() {
                            let mut more = arms;
                            let Some((_pat, next)) = more.pop() else {
                                return;
                            };
                            self = next;
                            left = Some(more);
                        } else {
                            let (next, more) = put_under(Code::select(term, waiting), arms);
                            self = next;
                            left = Some(more);
                        }
                    }
                },
                CodeNode::BindMatch(variable, term, arms, rest) => match left {
                    None => {
                        self = rest.into_inner();
                        left = Some(arms);
                    }
                    Some(waiting) => {
                        if arms.is_empty() {
                            self = rest.into_inner();
                            left = Some(waiting);
                        } else if waiting.is_empty() {
                            self = rest.into_inner();
                            left = Some(arms);
                        } else {
                            let (next, more) = put_under(
                                bind_waiting(variable, term, waiting, rest),
                                arms,
                            );
                            self = next;
                            left = Some(more);
                        }
                    }
                },
            }
        }
    }
}

/// A bind of a match's value before code that stands in a box already.
fn bind_waiting(variable: u32, term: Term, arms: List<(Pat, Code)>, rest: Boxed<Code>) -> Code
    ensures { result ≡ codes.bind_select variable term (codes.arms arms) rest }
{
    Code {
        node: CodeNode::BindMatch(variable, term, arms, rest),
    }
}

/// The code of the first of some arms, and the arms with other code in its place. It takes no
/// memory.
fn put_under(waiting: Code, arms: List<(Pat, Code)>) -> (Code, List<(Pat, Code)>)
    requires { 0 < length arms }
    ensures first { codes.nodes_code result.0 < codes.nodes_arms (codes.arms arms) }
    ensures all { codes.nodes_code result.0 + codes.nodes_arms (codes.arms result.1) ≡ codes.nodes_code waiting + codes.nodes_arms (codes.arms arms) }
{
    let mut arms = arms;
    let (_pat, first) = arms.replace(0, (Pat::Bool(true), waiting));
    (first, arms)
}

/// The forms of code: a bind of a computation's value, a variable for a term, a match that ends the
/// code, a last computation, and a bind of a match's value.
#[cycle(code)]
#[derive(Drop)]
pub enum CodeNode {
    Bind(u32, Comp, Boxed<Code>),
    Let(u32, Term, Boxed<Code>),
    Match(Term, List<(Pat, Code)>),
    Last(Comp),
    BindMatch(u32, Term, List<(Pat, Code)>, Boxed<Code>),
}

impl Model for Code {
    ghost use Rattle.pure_ast.specs.Code.{Code, coded_code, nodes_code};

    ghost Value = { Code };

    ghost coded = { coded_code };

    ghost use Rattle.pure_ast.specs.CodeView.{code_of};

    ghost view = { λ c. code_of c.node };

    ghost size = { nodes_code };

    ghost use Rattle.std.proofs.Common.{arith};
    ghost use Rattle.pure_ast.specs.CodeFalls.{code_falls};

    ghost size_decreases = { λ a h. Prim.omega (arith, code_falls a.node) };
}

impl Code {
    /// `variable` takes the computation's value in `rest`. The only error is want of memory.
    pub fn bind(alloc: Global, variable: u32, comp: Comp, rest: Code) -> Result<Code, NoMem>
        ensures { IfOk result (λ c. c ≡ codes.bind variable comp rest) }
    {
        Ok(Code {
            node: CodeNode::Bind(variable, comp, Boxed::new(alloc, rest)?),
        })
    }

    /// `variable` is the term in `rest`. The only error is want of memory.
    pub fn put(alloc: Global, variable: u32, term: Term, rest: Code) -> Result<Code, NoMem>
        ensures { IfOk result (λ c. c ≡ codes.put variable term rest) }
    {
        Ok(Code {
            node: CodeNode::Let(variable, term, Boxed::new(alloc, rest)?),
        })
    }

    /// The first arm whose pattern fits the term.
    pub fn select(term: Term, arms: List<(Pat, Code)>) -> Code
        ensures { result ≡ codes.select term (codes.arms arms) }
    {
        Code {
            node: CodeNode::Match(term, arms),
        }
    }

    /// A computation whose answer is the code's.
    pub fn last(comp: Comp) -> Code
        ensures { result ≡ codes.last comp }
    {
        Code {
            node: CodeNode::Last(comp),
        }
    }

    /// `variable` takes the value of the first arm whose pattern fits the term in `rest`. The only
    /// error is want of memory.
    pub fn bind_select(
        alloc: Global,
        variable: u32,
        term: Term,
        arms: List<(Pat, Code)>,
        rest: Code,
    ) -> Result<Code, NoMem>
        ensures { IfOk result (λ c. c ≡ codes.bind_select variable term (codes.arms arms) rest) }
    {
        Ok(Code {
            node: CodeNode::BindMatch(variable, term, arms, Boxed::new(alloc, rest)?),
        })
    }
}
