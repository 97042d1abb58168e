ghost use Rattle.std.specs.Prelude.{◌≡◌, ◌+◌, ◌<◌, length, IfOk};
ghost use Rattle.raw_ast.specs.Code as codes;

use crate::{Computation, Pattern, RawAtom, Spelling};
use aen_base::{Boxed, List, NoMem};
use std::alloc::Global;
use std::marker::Model;

/// Code as it is spelled. Contracts see it as `RawCode` of `specs/Code.antt`.
#[cycle(code)]
pub struct RawCode {
    pub node: RawCodeNode,
}

/// Code is dropped in a loop, however long its chains of binds and however deep its matches. The
/// arms that are left to drop stand in one list; where a match has arms of its own, that list waits
/// in the place of the first of them, which is dropped next.
impl Drop for RawCode {
    fn drop(mut self) {
        let mut left: Option<List<(Pattern, RawCode)>> = None;
        loop {
            let RawCode { node } = self;
            match node {
                RawCodeNode::Bind(_variable, _comp, rest) => self = rest.into_inner(),
                RawCodeNode::Let(_variable, _atom, rest) => self = rest.into_inner(),
                RawCodeNode::Last(_comp) => match left {
                    None => return,
                    Some(waiting) => {
                        let mut more = waiting;
                        let Some((_pat, next)) = more.pop() else {
                            return;
                        };
                        self = next;
                        left = Some(more);
                    }
                },
                RawCodeNode::Match(atom, arms) => match left {
                    None => {
                        let mut more = arms;
                        let Some((_pat, next)) = more.pop() else {
                            return;
                        };
                        self = next;
                        left = Some(more);
                    }
                    Some(waiting) => {
                        if arms.is_empty() {
                            let mut more = waiting;
                            let Some((_pat, next)) = more.pop() else {
                                return;
                            };
                            self = next;
                            left = Some(more);
                        } else if waiting.is_empty() {
                            let mut more = arms;
                            let Some((_pat, next)) = more.pop() else {
                                return;
                            };
                            self = next;
                            left = Some(more);
                        } else {
                            let (next, more) = put_under(RawCode::select(atom, waiting), arms);
                            self = next;
                            left = Some(more);
                        }
                    }
                },
            }
        }
    }
}

/// The code of the first of some arms, and the arms with other code in its place. It takes no
/// memory.
fn put_under(
    waiting: RawCode,
    arms: List<(Pattern, RawCode)>,
) -> (RawCode, List<(Pattern, RawCode)>)
    requires { 0 < length arms }
    ensures first { codes.nodes_rawcode result.0 < codes.nodes_rawarms (codes.rawarms arms) }
    ensures all { codes.nodes_rawcode result.0 + codes.nodes_rawarms (codes.rawarms result.1) ≡ codes.nodes_rawcode waiting + codes.nodes_rawarms (codes.rawarms arms) }
{
    let mut arms = arms;
    let (_pat, first) = arms.replace(0, (Pattern::Truth(true), waiting));
    (first, arms)
}

/// The forms of code: a bind of a computation's value, a variable for an atom, a match that ends the
/// code, and a last computation.
#[cycle(code)]
#[derive(Drop)]
pub enum RawCodeNode {
    Bind(Spelling, Computation, Boxed<RawCode>),
    Let(Spelling, RawAtom, Boxed<RawCode>),
    Match(RawAtom, List<(Pattern, RawCode)>),
    Last(Computation),
}

impl Model for RawCode {
    ghost use Rattle.raw_ast.specs.Code.{RawCode, coded_rawcode, nodes_rawcode};

    ghost Value = { RawCode };

    ghost coded = { coded_rawcode };

    ghost use Rattle.raw_ast.specs.CodeView.{code_of};

    ghost view = { λ c. code_of c.node };

    ghost size = { nodes_rawcode };

    ghost use Rattle.std.proofs.Common.{arith};
    ghost use Rattle.raw_ast.specs.CodeFalls.{code_falls};

    ghost size_decreases = { λ a h. Prim.omega (arith, code_falls a.node) };
}

impl RawCode {
    /// `variable` takes the computation's value in `rest`. The only error is want of memory.
    pub fn bind(
        alloc: Global,
        variable: Spelling,
        comp: Computation,
        rest: RawCode,
    ) -> Result<RawCode, NoMem>
        ensures { IfOk result (λ c. c ≡ codes.bind variable comp rest) }
    {
        Ok(RawCode {
            node: RawCodeNode::Bind(variable, comp, Boxed::new(alloc, rest)?),
        })
    }

    /// `variable` is the atom in `rest`. The only error is want of memory.
    pub fn put(
        alloc: Global,
        variable: Spelling,
        atom: RawAtom,
        rest: RawCode,
    ) -> Result<RawCode, NoMem>
        ensures { IfOk result (λ c. c ≡ codes.put variable atom rest) }
    {
        Ok(RawCode {
            node: RawCodeNode::Let(variable, atom, Boxed::new(alloc, rest)?),
        })
    }

    /// The first arm whose pattern fits the atom.
    pub fn select(atom: RawAtom, arms: List<(Pattern, RawCode)>) -> RawCode
        ensures { result ≡ codes.select atom (codes.rawarms arms) }
    {
        RawCode {
            node: RawCodeNode::Match(atom, arms),
        }
    }

    /// A computation whose answer is the code's.
    pub fn last(comp: Computation) -> RawCode
        ensures { result ≡ codes.last comp }
    {
        RawCode {
            node: RawCodeNode::Last(comp),
        }
    }
}
