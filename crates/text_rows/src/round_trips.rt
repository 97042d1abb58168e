//! What is printed is read back: each construct of the printed language as it is laid out.
use lean_printer::print;
use lean_reader::read_defs;
use std::test::Fail;

pub const TEXT: &str = "import AenPrelude
open AenPrelude

structure P (A : Type) («ret» : Type) where
  (a : A)
  («U8» : (U8 × Bool × (Exit Unit «ret»)))

structure Empty where

inductive L (T : Type) where
  | nil : L T
  | cons : T → (L T) → L T

inductive Never where

def fn.f {T : Type} {S : Type} (n : Nat) (v0 : T) (v1 : (P T S)) (v2 : Empty) : Result ((L (L T)) × S) :=
  match n with
  | 0 => outOfFuel
  | n + 1 => do
    fn.f.loop0 n v0 v1 v2

def fn.f.loop0 (n : Nat) (v0 : (U8 × U16 × U32 × U64 × U128 × Usize × I8 × I16 × I32 × I64 × I128 × Isize)) (v1 : Bool) (v2 : Unit) : Result Unit :=
  match n with
  | 0 => outOfFuel
  | n + 1 => do
    fail

def fn.f.back0 (n : Nat) : Result Bool :=
  match n with
  | 0 => outOfFuel
  | n + 1 => do
    ok true

def fn.f.loop0.back1 (n : Nat) : Result Bool :=
  match n with
  | 0 => outOfFuel
  | n + 1 => do
    ok false

def fn.«é» (n : Nat) (v0 : (L U8)) (v1 : Bool) (v2 : (U8 × I128)) (v3 : (Exit U8 Bool)) : Result Unit :=
  match n with
  | 0 => outOfFuel
  | n + 1 => do
    let v4 := (v0, v1, (), (1#U8, -170141183460469231731687303715884105728#I128));
    let v5 := (L.cons 255#U8 (L.cons 0#U8 L.nil));
    let v6 := (Exit.brk true);
    let v7 := (Exit.ret Empty.mk);
    let v8 ← U32.add 1#U32 2#U32;
    let v9 ← U32.sub 1#U32 2#U32;
    let v10 ← U32.mul 1#U32 2#U32;
    let v11 ← U32.div 1#U32 2#U32;
    let v12 ← U32.rem 1#U32 2#U32;
    let v13 ← U32.shl 1#U32 2#U32;
    let v14 ← U32.shr 1#U32 2#U32;
    let v15 ← U32.and 1#U32 2#U32;
    let v16 ← U32.or 1#U32 2#U32;
    let v17 ← U32.xor 1#U32 2#U32;
    let v18 ← U32.eq 1#U32 2#U32;
    let v19 ← U32.ne 1#U32 2#U32;
    let v20 ← U32.lt 1#U32 2#U32;
    let v21 ← U32.le 1#U32 2#U32;
    let v22 ← U32.gt 1#U32 2#U32;
    let v23 ← U32.ge 1#U32 2#U32;
    let v24 ← Isize.neg -1#Isize;
    let v25 ← Isize.not -1#Isize;
    let v26 ← Bool.eq v1 true;
    let v27 ← Bool.ne v1 true;
    let v28 ← Bool.and v1 true;
    let v29 ← Bool.or v1 true;
    let v30 ← Bool.xor v1 true;
    let v31 ← Bool.not false;
    let v32 ← cast.U8.U8 0#U8;
    let v33 ← cast.U16.U8 0#U16;
    let v34 ← cast.U32.U8 0#U32;
    let v35 ← cast.U64.U8 0#U64;
    let v36 ← cast.U128.U8 0#U128;
    let v37 ← cast.Usize.U8 0#Usize;
    let v38 ← cast.I8.U8 0#I8;
    let v39 ← cast.I16.U8 0#I16;
    let v40 ← cast.I32.U8 0#I32;
    let v41 ← cast.I64.U8 0#I64;
    let v42 ← cast.I128.U8 0#I128;
    let v43 ← cast.Isize.U8 0#Isize;
    let v44 ← cast.Bool.I64 v1;
    let v45 ← Box.new ();
    let v46 ← mem.replace v0 v0;
    let v47 ← mem.replace.back0 v0 v0;
    let v48 ← mem.swap v0 v0;
    let v49 ← mem.swap.back0 v0 v0;
    let v50 ← mem.swap.back1 v0 v0;
    let v51 ← fn.f.back0 n;
    let v52 ← ok v4;
    let v53 ← fail;
    (match v1 with
    | true => do
      (match v2 with
      | (v54, v55) => do
        (match v0 with
        | L.nil => do
          ok ()
        | L.cons v56 v57 => do
          fail))
    | false => do
      (match v3 with
      | Exit.brk v58 => do
        ok ()
      | Exit.ret v59 => do
        (match v5 with)))
";

#[test]
fn each_construct_is_printed_as_it_was_read(rt: HostRuntime) -> Result<(), Fail> {
    let defs = read_defs(rt.alloc(), TEXT).ok().ok_or("it is a text")?;
    let printed = print(rt.alloc(), &defs)?;
    assert_eq!(rt; printed.as_str(), TEXT);
    Ok(())
}
