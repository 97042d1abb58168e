//! Where tokens leave the grammar.

ghost use Rattle.std.specs.Prelude.{◌<◌, ◌^◌, length};

use aen_base::NoMem;
use raw_reader::read_text;
use std::alloc::Global;
use text_syntax::lexemes_of;
use text_tokens::lex;

/// The fault of a text that has only tokens.
fn fault_of(alloc: Global, text: &str) -> Result<Option<usize>, NoMem>
    requires { length text.now < 2 ^ 32 }
{
    let lexemes = lexemes_of(alloc, lex(alloc, text)?.list)?;
    match read_text(alloc, lexemes.as_slice())? {
        Ok(_) => Ok(None),
        Err(number) => Ok(Some(number)),
    }
}

/// A text of one definition with this code, which begins with token 30.
macro_rules! definition {
    ($code:literal) => {
        concat!(
            "import AenPrelude open AenPrelude def fn.f (n : Nat) : Result Unit := match n with | 0 => outOfFuel | n + 1 => do ",
            $code
        )
    };
}

#[test]
fn whole_texts(rt: HostRuntime) -> Result<(), NoMem> {
    assert_eq!(rt;
        fault_of(rt.alloc(), "import AenPrelude open AenPrelude")?,
        None
    );
    assert_eq!(rt;
        fault_of(
            rt.alloc(),
            "import AenPrelude open AenPrelude inductive L (T : Type) where | nil : L T | cons : T → (L T) → L T structure S where (a : (U8 × Bool)) def fn.f.loop0.back1 {T : Type} (n : Nat) (v0 : (L T)) : Result (Exit Unit (L T)) := match n with | 0 => outOfFuel | n + 1 => do let v1 ← fn.«match» n 007#U8 v0; (match v0 with | L.nil => do mem.swap.back1 v0 (L.cons v1 v0) | L.cons v2 v3 => do ok (Exit.brk, ()))"
        )?,
        None
    );
    Ok(())
}

#[test]
fn first_tokens_that_end_all_texts(rt: HostRuntime) -> Result<(), NoMem> {
    assert_eq!(rt; fault_of(rt.alloc(), "")?, Some(0));
    assert_eq!(rt;
        fault_of(rt.alloc(), "import AenPrelude open open")?,
        Some(3)
    );
    assert_eq!(rt; fault_of(rt.alloc(), definition!("U32.new"))?, Some(32));
    assert_eq!(rt; fault_of(rt.alloc(), definition!("ok (v0, v1"))?, Some(35));
    assert_eq!(rt;
        fault_of(rt.alloc(), definition!("let v0 ← (match v1 with)"))?,
        Some(33)
    );
    Ok(())
}
