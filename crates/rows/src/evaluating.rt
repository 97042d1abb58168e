use crate::table::{GOOD, Row, answers, gives};
use aen_base::NoMem;

/// A text with a list, a structure, type parameters, both ways out of a loop, and calls.
const TEXT: &[u8] =
    b"import AenPrelude\nopen AenPrelude\n\ninductive L (T : Type) where\n  | nil : L T\n  | cons : T \xe2\x86\x92 (L T) \xe2\x86\x92 L T\n\nstructure P where\n  (x : U8)\n  (y : I64)\n\ndef fn.sum (n : Nat) (v0 : (L U32)) : Result U32 :=\n  match n with\n  | 0 => outOfFuel\n  | n + 1 => do\n    (match v0 with\n    | L.nil => do\n      ok 0#U32\n    | L.cons v1 v2 => do\n      let v3 \xe2\x86\x90 fn.sum n v2;\n      U32.add v1 v3)\n\ndef fn.swap {A : Type} {B : Type} (n : Nat) (v0 : (A \xc3\x97 B)) : Result (B \xc3\x97 A) :=\n  match n with\n  | 0 => outOfFuel\n  | n + 1 => do\n    (match v0 with\n    | (v1, v2) => do\n      ok (v2, v1))\n\ndef fn.swap.back0 {A : Type} (n : Nat) (v0 : A) : Result A :=\n  match n with\n  | 0 => outOfFuel\n  | n + 1 => do\n    ok v0\n\ndef fn.make (n : Nat) (v0 : U8) (v1 : I64) : Result P :=\n  match n with\n  | 0 => outOfFuel\n  | n + 1 => do\n    ok (P.mk v0 v1)\n\ndef fn.out (n : Nat) (v0 : Bool) : Result (Exit U32 Unit) :=\n  match n with\n  | 0 => outOfFuel\n  | n + 1 => do\n    (match v0 with\n    | true => do\n      ok (Exit.brk 7#U32)\n    | false => do\n      ok (Exit.ret ()))\n\ndef fn.stop (n : Nat) : Result Unit :=\n  match n with\n  | 0 => outOfFuel\n  | n + 1 => do\n    fail\n\ndef fn.neg (n : Nat) (v0 : I8) : Result I8 :=\n  match n with\n  | 0 => outOfFuel\n  | n + 1 => do\n    I8.neg v0\n\ndef fn.wide (n : Nat) (v0 : I8) : Result U128 :=\n  match n with\n  | 0 => outOfFuel\n  | n + 1 => do\n    cast.I8.U128 v0\n\ndef fn.\xc2\xab\xc3\xa9\xc2\xbb (n : Nat) (v0 : Unit) : Result Unit :=\n  match n with\n  | 0 => outOfFuel\n  | n + 1 => do\n    ok v0\n\ndef fn.half (n : Nat) (v0 : Bool) : Result Unit :=\n  match n with\n  | 0 => outOfFuel\n  | n + 1 => do\n    (match v0 with\n    | true => do\n      ok ())\n\ndef fn.unbound (n : Nat) : Result U32 :=\n  match n with\n  | 0 => outOfFuel\n  | n + 1 => do\n    ok v9\n";

/// A call on that text: the words after the program's name, and what has to come.
struct Call {
    words: &'static [&'static str],
    status: u8,
    text: &'static str,
}

/// The answers are those of the independent reference.
const CALLS: &[Call] = &[
    Call {
        words: &[
            "eval",
            "a.rs",
            "fn.sum",
            "9",
            "(L.cons 1#U32 (L.cons 2#U32 L.nil))",
        ],
        status: 0,
        text: "ok 3#U32\n",
    },
    Call {
        words: &[
            "eval",
            "a.rs",
            "fn.sum",
            "2",
            "(L.cons 1#U32 (L.cons 2#U32 L.nil))",
        ],
        status: 21,
        text: "outOfFuel\n",
    },
    Call {
        words: &[
            "eval",
            "a.rs",
            "fn.sum",
            "9",
            "(L.cons 4294967295#U32 (L.cons 1#U32 L.nil))",
        ],
        status: 20,
        text: "fail\n",
    },
    Call {
        words: &["eval", "a.rs", "fn.sum", "9", "(L.cons 1#U8 L.nil)"],
        status: 11,
        text: "refused 11 argument 0\n",
    },
    Call {
        words: &["eval", "a.rs", "fn.sum", "9", "L.nil"],
        status: 0,
        text: "ok 0#U32\n",
    },
    Call {
        words: &[
            "eval",
            "a.rs",
            "fn.swap::<U8, (L P)>",
            "1",
            "(255#U8, (L.cons (P.mk 1#U8 -2#I64) L.nil))",
        ],
        status: 0,
        text: "ok ((L.cons (P.mk 1#U8 -2#I64) L.nil), 255#U8)\n",
    },
    Call {
        words: &["eval", "a.rs", "fn.swap", "1", "(1#U8, 2#U8)"],
        status: 11,
        text: "refused 11 types\n",
    },
    Call {
        words: &["eval", "a.rs", "fn.swap::<U8>", "1", "(1#U8, 2#U8)"],
        status: 11,
        text: "refused 11 types\n",
    },
    Call {
        words: &["eval", "a.rs", "fn.swap::<U8, X>", "1", "(1#U8, 2#U8)"],
        status: 11,
        text: "refused 11 types\n",
    },
    Call {
        words: &["eval", "a.rs", "fn.swap::<U8,U8", "1", "(1#U8, 2#U8)"],
        status: 13,
        text: "refused 13 name\n",
    },
    Call {
        words: &["eval", "a.rs", "fn.swap.back0::<Bool>", "1", "true"],
        status: 0,
        text: "ok true\n",
    },
    Call {
        words: &[
            "eval",
            "a.rs",
            "fn.make",
            "1",
            "255#U8",
            "-9223372036854775808#I64",
        ],
        status: 0,
        text: "ok (P.mk 255#U8 -9223372036854775808#I64)\n",
    },
    Call {
        words: &["eval", "a.rs", "fn.make", "1", "256#U8", "0#I64"],
        status: 11,
        text: "refused 11 argument 0\n",
    },
    Call {
        words: &["eval", "a.rs", "fn.make", "1", "1#U8"],
        status: 11,
        text: "refused 11 count 2 1\n",
    },
    Call {
        words: &["eval", "a.rs", "fn.make", "1", "1#U8", "-0#I64"],
        status: 11,
        text: "refused 11 argument 1\n",
    },
    Call {
        words: &["eval", "a.rs", "fn.make", "1", "01#U8", "0#I64"],
        status: 11,
        text: "refused 11 argument 0\n",
    },
    Call {
        words: &["eval", "a.rs", "fn.make", "1", " 1#U8", " 2 # I64 "],
        status: 0,
        text: "ok (P.mk 1#U8 2#I64)\n",
    },
    Call {
        words: &["eval", "a.rs", "fn.out", "1", "true"],
        status: 0,
        text: "ok (Exit.brk 7#U32)\n",
    },
    Call {
        words: &["eval", "a.rs", "fn.out", "1", "false"],
        status: 0,
        text: "ok (Exit.ret ())\n",
    },
    Call {
        words: &["eval", "a.rs", "fn.stop", "1"],
        status: 20,
        text: "fail\n",
    },
    Call {
        words: &["eval", "a.rs", "fn.stop", "0"],
        status: 21,
        text: "outOfFuel\n",
    },
    Call {
        words: &["eval", "a.rs", "fn.stop", "257"],
        status: 10,
        text: "refused 10 limit fuel 257\n",
    },
    Call {
        words: &["eval", "a.rs", "fn.neg", "1", "-128#I8"],
        status: 20,
        text: "fail\n",
    },
    Call {
        words: &["eval", "a.rs", "fn.neg", "1", "127#I8"],
        status: 0,
        text: "ok -127#I8\n",
    },
    Call {
        words: &["eval", "a.rs", "fn.wide", "1", "-1#I8"],
        status: 0,
        text: "ok 340282366920938463463374607431768211455#U128\n",
    },
    Call {
        words: &["eval", "a.rs", "fn.«é»", "1", "()"],
        status: 0,
        text: "ok ()\n",
    },
    Call {
        words: &["eval", "a.rs", "fn.é", "1", "()"],
        status: 13,
        text: "refused 13 name\n",
    },
    Call {
        words: &["eval", "a.rs", "fn.half", "1", "false"],
        status: 22,
        text: "stuck\n",
    },
    Call {
        words: &["eval", "a.rs", "fn.half", "1", "true"],
        status: 0,
        text: "ok ()\n",
    },
    Call {
        words: &["eval", "a.rs", "fn.unbound", "1"],
        status: 22,
        text: "stuck\n",
    },
    Call {
        words: &["eval", "a.rs", "fn.none", "1"],
        status: 13,
        text: "refused 13 name\n",
    },
    Call {
        words: &["eval", "a.rs", "sum", "1"],
        status: 13,
        text: "refused 13 name\n",
    },
    Call {
        words: &["eval", "a.rs", "fn.sum", "1", "v0"],
        status: 11,
        text: "refused 11 argument 0\n",
    },
];

/// Texts that are none: each with its first fault.
const FAULTS: &[Row] = &[
    Row {
        content: b"import AenPrelude\nopen AenPrelude\ndef",
        words: &["eval", "a.rs", "fn.f", "1"],
        status: 12,
        text: "refused 12 text 37..37\n",
    },
    Row {
        content: b"",
        words: &["eval", "a.rs", "fn.f", "1"],
        status: 12,
        text: "refused 12 text 0..0\n",
    },
    Row {
        content: b"import AenPrelude\nopen AenPrelude\n",
        words: &["eval", "a.rs", "fn.f", "1"],
        status: 13,
        text: "refused 13 name\n",
    },
    Row {
        content: b"import AenPrelude\nopen AenPrelude\ninductive L where | nil : L U8",
        words: &["eval", "a.rs", "fn.f", "1"],
        status: 12,
        text: "refused 12 text 62..64\n",
    },
    Row {
        content: b"import AenPrelude\nopen AenPrelude\ninductive L where | nil : L | nil : L",
        words: &["eval", "a.rs", "fn.f", "1"],
        status: 12,
        text: "refused 12 text 64..67\n",
    },
    Row {
        content: b"import AenPrelude\nopen AenPrelude\nstructure S (T : Type) (T : Type) where",
        words: &["eval", "a.rs", "fn.f", "1"],
        status: 12,
        text: "refused 12 text 58..59\n",
    },
    Row {
        content: b"import AenPrelude\nopen AenPrelude\ninductive L where | c : (L U8) \xe2\x86\x92 L",
        words: &["eval", "a.rs", "fn.f", "1"],
        status: 12,
        text: "refused 12 text 59..60\n",
    },
    Row {
        content: b"import AenPrelude\nopen AenPrelude\ndef fn.f (n : Nat) : Result U8 :=\n  match n with\n  | 0 => outOfFuel\n  | n + 1 => do\n    ok 256#U8\n",
        words: &["eval", "a.rs", "fn.f", "1"],
        status: 12,
        text: "refused 12 text 125..128\n",
    },
    Row {
        content: b"import AenPrelude\nopen AenPrelude\ndef fn.f (n : Nat) : Result U8 :=\n  match n with\n  | 0 => outOfFuel\n  | n + 1 => do\n    ok 007#U8\n",
        words: &["eval", "a.rs", "fn.f", "1"],
        status: 12,
        text: "refused 12 text 125..128\n",
    },
    Row {
        content: b"import AenPrelude\nopen AenPrelude\ndef fn.f (n : Nat) (v0 : U8) : Result U8 :=\n  match n with\n  | 0 => outOfFuel\n  | n + 1 => do\n    ok v00\n",
        words: &["eval", "a.rs", "fn.f", "1", "1#U8"],
        status: 12,
        text: "refused 12 text 135..138\n",
    },
    Row {
        content: b"import AenPrelude\nopen AenPrelude\ndef fn.f (n : Nat) : Result U8 :=\n  match n with\n  | 0 => outOfFuel\n  | n + 1 => do\n    fn.g n\n",
        words: &["eval", "a.rs", "fn.f", "1"],
        status: 12,
        text: "refused 12 text 125..126\n",
    },
    Row {
        content: b"import AenPrelude\nopen AenPrelude\ndef fn.f (n : Nat) : Result U8 :=\n  match n with\n  | 0 => outOfFuel\n  | n + 1 => do\n    fn.f n 1#U8\n",
        words: &["eval", "a.rs", "fn.f", "1"],
        status: 12,
        text: "refused 12 text 125..126\n",
    },
    Row {
        content: b"import AenPrelude\nopen AenPrelude\ndef fn.f (n : Nat) : Result U8 :=\n  match n with\n  | 0 => outOfFuel\n  | n + 1 => do\n    U8.add 1#U8\n",
        words: &["eval", "a.rs", "fn.f", "1"],
        status: 12,
        text: "refused 12 text 125..128\n",
    },
    Row {
        content: b"import AenPrelude\nopen AenPrelude\ndef fn.f (n : Nat) : Result U8 :=\n  match n with\n  | 0 => outOfFuel\n  | n + 1 => do\n    U8.foo 1#U8\n",
        words: &["eval", "a.rs", "fn.f", "1"],
        status: 12,
        text: "refused 12 text 125..128\n",
    },
    Row {
        content: b"import AenPrelude\nopen AenPrelude\ndef fn.f (n : Nat) : Result U8 :=\n  match n with\n  | 0 => outOfFuel\n  | n + 1 => do\n    ok X.c\n",
        words: &["eval", "a.rs", "fn.f", "1"],
        status: 12,
        text: "refused 12 text 125..126\n",
    },
    Row {
        content: b"import AenPrelude\nopen AenPrelude\ndef fn.f (n : Nat) : Result U8 :=\n  match n with\n  | 0 => outOfFuel\n  | n + 1 => do\n    ok Exit.brk\n",
        words: &["eval", "a.rs", "fn.f", "1"],
        status: 12,
        text: "refused 12 text 130..133\n",
    },
    Row {
        content: b"import AenPrelude\nopen AenPrelude\ndef fn.f (n : Nat) : Result U8 :=\n  match n with\n  | 0 => outOfFuel\n  | n + 1 => do\n    ok (1#U8\n",
        words: &["eval", "a.rs", "fn.f", "1"],
        status: 12,
        text: "refused 12 text 131..131\n",
    },
    Row {
        content: b"import AenPrelude\nopen AenPrelude\ndef fn.f (n : Nat) : Result U8 :=\n  match n with\n  | 0 => outOfFuel\n  | n + 1 => do\n    fail\ndef fn.f (n : Nat) : Result U8 :=\n  match n with\n  | 0 => outOfFuel\n  | n + 1 => do\n    fail\n",
        words: &["eval", "a.rs", "fn.f", "1"],
        status: 12,
        text: "refused 12 text 134..135\n",
    },
    Row {
        content: b"import AenPrelude\nopen AenPrelude\ndef fn.f (n : Nat) (v1 : U8) : Result U8 :=\n  match n with\n  | 0 => outOfFuel\n  | n + 1 => do\n    fail\n",
        words: &["eval", "a.rs", "fn.f", "1"],
        status: 12,
        text: "refused 12 text 54..56\n",
    },
    Row {
        content: b"import AenPrelude\nopen AenPrelude\ndef fn.f.loop01 (n : Nat) : Result U8 :=\n  match n with\n  | 0 => outOfFuel\n  | n + 1 => do\n    fail\n",
        words: &["eval", "a.rs", "fn.f", "1"],
        status: 12,
        text: "refused 12 text 43..49\n",
    },
    Row {
        content: b"import AenPrelude\nopen AenPrelude\n\xc3\xa9",
        words: &["eval", "a.rs", "fn.f", "1"],
        status: 12,
        text: "refused 12 text 34..36\n",
    },
    Row {
        content: b"import AenPrelude\nopen AenPrelude\ndef fn.\xc2\xab\xc2\xbb",
        words: &["eval", "a.rs", "fn.f", "1"],
        status: 12,
        text: "refused 12 text 41..43\n",
    },
    Row {
        content: b"import AenPrelude \xff",
        words: &["eval", "a.rs", "fn.f", "1"],
        status: 4,
        text: "refused 4 utf8 18\n",
    },
];

#[test]
fn definitions_are_evaluated(rt: HostRuntime) -> Result<(), NoMem> {
    for call in CALLS {
        let text = call.text.as_bytes();
        let given = answers(rt.alloc(), &GOOD, TEXT, call.words, call.status, text)?;
        assert!(rt; given);
    }
    Ok(())
}

#[test]
fn faults_of_texts(rt: HostRuntime) -> Result<(), NoMem> {
    for row in FAULTS {
        let given = gives(rt.alloc(), &GOOD, row)?;
        assert!(rt; given);
    }
    Ok(())
}
