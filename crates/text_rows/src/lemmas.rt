//! Lemma templates as the language's description lays them out.
use lean_printer::print_lemmas;
use lean_reader::read_defs;
use std::test::Fail;

const TEXT: &str = "import AenPrelude
open AenPrelude

def fn.add1 (n : Nat) (v0 : U32) : Result U32 :=
  match n with
  | 0 => outOfFuel
  | n + 1 => do
    let v1 ← U32.add v0 1#U32;
    ok v1
";

const LEMMAS: &str = "import AenPrelude
open AenPrelude

theorem fn.add1.spec (n : Nat) (v0 : U32) (v1 : U32) (h : fn.add1 n v0 = ok v1) : True := sorry
";

#[test]
fn a_lemma_template(rt: HostRuntime) -> Result<(), Fail> {
    let defs = read_defs(rt.alloc(), TEXT).ok().ok_or("it is a text")?;
    let printed = print_lemmas(rt.alloc(), &defs)?;
    assert_eq!(rt; printed.as_str(), LEMMAS);
    Ok(())
}
