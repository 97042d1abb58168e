//! Each primitive of printed texts (docs/TEXT.md, "Meaning"), evaluated.
use crate::table::{GOOD, answers};
use aen_base::NoMem;

/// The head of the one definition, before its code.
const HEAD: &str =
    "import AenPrelude open AenPrelude def fn.f (n : Nat) : Result Unit := match n with | 0 => outOfFuel | n + 1 => do ";

/// Computations and their answers. The answers are those of the independent reference.
const ANSWERS: &[(&str, &str)] = &[
    ("U8.add 200#U8 55#U8", "ok 255#U8"),
    ("U8.add 200#U8 56#U8", "fail"),
    ("I8.sub -128#I8 1#I8", "fail"),
    ("U16.sub 7#U16 7#U16", "ok 0#U16"),
    ("I32.mul -65536#I32 32768#I32", "ok -2147483648#I32"),
    (
        "U128.mul 340282366920938463463374607431768211455#U128 2#U128",
        "fail",
    ),
    ("I16.div -7#I16 2#I16", "ok -3#I16"),
    ("I16.div -32768#I16 -1#I16", "fail"),
    ("Isize.rem -7#Isize 2#Isize", "ok -1#Isize"),
    ("Usize.rem 7#Usize 0#Usize", "fail"),
    ("U8.shl 129#U8 1#I64", "ok 2#U8"),
    ("U8.shl 1#U8 8#U8", "fail"),
    ("I64.shr -5#I64 1#U8", "ok -3#I64"),
    ("I64.shr 1#I64 -1#I8", "fail"),
    ("I8.and -2#I8 7#I8", "ok 6#I8"),
    ("U32.or 12#U32 10#U32", "ok 14#U32"),
    ("U64.xor 12#U64 10#U64", "ok 6#U64"),
    (
        "I128.neg -170141183460469231731687303715884105728#I128",
        "fail",
    ),
    ("I16.neg 5#I16", "ok -5#I16"),
    ("U16.not 1#U16", "ok 65534#U16"),
    ("I32.not 0#I32", "ok -1#I32"),
    ("U8.eq 3#U8 3#U8", "ok true"),
    ("I8.ne -1#I8 1#I8", "ok true"),
    ("I8.lt -1#I8 1#I8", "ok true"),
    ("U64.le 3#U64 2#U64", "ok false"),
    ("I128.gt -2#I128 -3#I128", "ok true"),
    ("Usize.ge 2#Usize 2#Usize", "ok true"),
    ("Bool.eq true false", "ok false"),
    ("Bool.ne true false", "ok true"),
    ("Bool.and true false", "ok false"),
    ("Bool.or true false", "ok true"),
    ("Bool.xor true true", "ok false"),
    ("Bool.not false", "ok true"),
    ("cast.I8.U16 -1#I8", "ok 65535#U16"),
    ("cast.U32.I8 200#U32", "ok -56#I8"),
    ("cast.U8.I64 200#U8", "ok 200#I64"),
    ("cast.Bool.U8 true", "ok 1#U8"),
    ("Box.new 7#U8", "ok 7#U8"),
    ("mem.replace 1#U8 2#U8", "ok 1#U8"),
    ("mem.replace.back0 1#U8 2#U8", "ok 2#U8"),
    ("mem.swap 1#U8 2#U8", "ok ()"),
    ("mem.swap.back0 1#U8 2#U8", "ok 2#U8"),
    ("mem.swap.back1 1#U8 2#U8", "ok 1#U8"),
    ("U32.add 1#U32 true", "stuck"),
    ("U8.add 1#U8 1#U16", "stuck"),
];

/// The status of an answer.
fn status(answer: &str) -> u8 {
    match answer {
        "fail" => 20,
        "stuck" => 22,
        _ => 0,
    }
}

#[test]
fn primitives_are_evaluated(rt: HostRuntime) -> Result<(), NoMem> {
    const WORDS: &[&str] = &["eval", "a.rs", "fn.f", "1"];
    for (computation, answer) in ANSWERS {
        let content = format!(in rt.alloc(); "{HEAD}{computation}")?;
        let line = format!(in rt.alloc(); "{answer}\n")?;
        let given = answers(
            rt.alloc(),
            &GOOD,
            content.as_bytes(),
            WORDS,
            status(answer),
            line.as_bytes(),
        )?;
        assert!(rt; given, "{computation}");
    }
    Ok(())
}
