//! Which names stand in a text without marks.
ghost use Rattle.std.specs.Prelude.{◌≡◌, ◌&&◌, bytes_eq};
ghost use Rattle.std.specs.List.{list_all, list_any};
ghost use Rattle.std.specs.Char.{is_ascii_digit};
ghost use Rattle.text_meaning.specs.Names as spec;
ghost use Rattle.text_meaning.specs.Words as words;

/// Whether a name is ASCII letters, digits and `_`, no word of the text and no `v` with digits.
pub fn is_bare(name: &str) -> bool
    ensures { result ≡ spec.is_bare name.now }
{
    let bytes = name.as_bytes();
    is_plain(bytes) && name != "_" && !is_reserved(name) && !is_variable(bytes)
}

/// Whether the bytes begin as a word does and go on as one.
fn is_plain(bytes: &[u8]) -> bool
    ensures { result ≡ (spec.begins spec.is_word_start bytes.now && list_all spec.is_word_byte bytes.now) }
{
    begins_word(bytes) && are_word_bytes(bytes)
}

fn begins_word(bytes: &[u8]) -> bool
    ensures { result ≡ spec.begins spec.is_word_start bytes.now }
{
    match bytes {
        [first, ..] => is_word_start(*first),
        [] => false,
    }
}

fn is_word_start(byte: u8) -> bool
    ensures { result ≡ spec.is_word_start byte }
{
    byte.is_ascii_alphabetic() || byte == b'_'
}

fn are_word_bytes(bytes: &[u8]) -> bool
    ensures { result ≡ list_all spec.is_word_byte bytes.now }
{
    for byte in bytes {
        if !is_word_start(*byte) && !byte.is_ascii_digit() {
            return false;
        }
    }
    true
}

/// Whether the bytes are `v` with digits.
pub fn is_variable(bytes: &[u8]) -> bool
    ensures { result ≡ spec.is_variable bytes.now }
{
    match bytes {
        [first, digits @ ..] => *first == b'v' && are_digits(digits),
        [] => false,
    }
}

/// Whether the bytes are decimal digits, at least one.
pub fn are_digits(bytes: &[u8]) -> bool
    ensures { result ≡ spec.are_digits bytes.now }
{
    !bytes.is_empty() && all_digits(bytes)
}

fn all_digits(bytes: &[u8]) -> bool
    ensures { result ≡ list_all is_ascii_digit bytes.now }
{
    for byte in bytes {
        if !byte.is_ascii_digit() {
            return false;
        }
    }
    true
}

fn is_reserved(name: &str) -> bool
    ensures { result ≡ spec.is_reserved name.now }
{
    is_heading_word(name) || is_code_word(name) || is_part_word(name) || is_int_word(name)
}

fn is_heading_word(name: &str) -> bool
    ensures { result ≡ list_any (bytes_eq name.now) words.heading_words }
{
    name == "import"
        || name == "AenPrelude"
        || name == "open"
        || name == "inductive"
        || name == "Type"
        || name == "where"
        || name == "structure"
        || name == "def"
        || name == "n"
        || name == "Nat"
        || name == "Result"
}

fn is_code_word(name: &str) -> bool
    ensures { result ≡ list_any (bytes_eq name.now) words.code_words }
{
    name == "match"
        || name == "with"
        || name == "outOfFuel"
        || name == "do"
        || name == "let"
        || name == "true"
        || name == "false"
        || name == "ok"
        || name == "fail"
        || name == "brk"
        || name == "ret"
}

fn is_part_word(name: &str) -> bool
    ensures { result ≡ list_any (bytes_eq name.now) words.part_words }
{
    name == "Bool"
        || name == "Unit"
        || name == "Exit"
        || name == "fn"
        || name == "loop"
        || name == "back"
}

/// Whether the word is an integer type of the text.
pub fn is_int_word(name: &str) -> bool
    ensures { result ≡ list_any (bytes_eq name.now) words.int_words }
{
    name == "U8"
        || name == "U16"
        || name == "U32"
        || name == "U64"
        || name == "U128"
        || name == "Usize"
        || name == "I8"
        || name == "I16"
        || name == "I32"
        || name == "I64"
        || name == "I128"
        || name == "Isize"
}
