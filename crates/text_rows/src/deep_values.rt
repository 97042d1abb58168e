//! Values as deep as no word is, which evaluation copies.
use aen_base::{DefId, List, NoMem};
use lean_reader::read_defs;
use pure_ast::{PValue, PValueNode};
use pure_eval::eval;
use std::alloc::Global;
use std::test::Fail;
use text_meaning::Answer;

/// How deep.
const DEPTH: u64 = 200_000;

/// A definition that gives its argument.
const TEXT: &str = "import AenPrelude
open AenPrelude

def fn.same {T : Type} (n : Nat) (v0 : T) : Result T :=
  match n with
  | 0 => outOfFuel
  | n + 1 => do
    ok v0
";

/// `true` under as many tuples of one part as `depth` says.
fn nested(alloc: Global, depth: u64) -> Result<PValue, NoMem> {
    let mut value = PValue::truth(true);
    for _ in 0..depth {
        let mut parts = List::new(alloc);
        parts.push(value)?;
        value = PValue::tuple(parts);
    }
    Ok(value)
}

/// What is under as many tuples as `depth` says.
fn under(value: PValue, depth: u64) -> Option<PValue> {
    let mut value = value;
    for _ in 0..depth {
        let PValueNode::Tuple(mut parts) = value.into_node() else {
            return None;
        };
        value = parts.pop()?;
    }
    Some(value)
}

#[test]
fn copies_a_deep_value(rt: HostRuntime) -> Result<(), Fail> {
    let alloc = rt.alloc();
    let defs = read_defs(alloc, TEXT).ok().ok_or("it is a text")?;
    let arguments = [nested(alloc, DEPTH)?];
    let Answer::Ok(value) = eval(alloc, &defs, DefId(0), &arguments, 1)? else {
        return Ok(assert!(rt; false));
    };
    let inner = under(value, DEPTH).ok_or("it is as deep")?;
    assert!(rt; matches!(&inner.node, PValueNode::Bool(true)));
    Ok(())
}
