ghost use Rattle.std.specs.Prelude.{◌≡◌, ◌<◌, ◌^◌, ◌↔◌, IsTrue, All, MatchOption, map};
ghost use Rattle.std.specs.String.{string_bytes, string_len};
ghost use Rattle.aeneas.specs.Words.{HasNoForm};
ghost use Rattle.aeneas.specs.Parsed.{IsCommand, IsNoFileForm, IsFileForm, IsNoCall, IsCallOf};

use crate::fuel::fuel_number;

/// A command, as its words give it.
pub enum Command<'a> {
    /// `check FILE`
    Check(&'a str),
    /// `translate FILE`
    Translate(&'a str),
    /// `run FILE FN FUEL VALUE..`
    Run(&'a str, &'a str, u64, &'a [String]),
    /// `eval FILE DEF FUEL VALUE..`
    Eval(&'a str, &'a str, u64, &'a [String]),
}

/// The command that the words give; None exactly where they have none of the forms.
pub fn command_of(words: &[String]) -> Option<Command<'_>>
    ensures { MatchOption result (HasNoForm (map string_bytes words.now)) (IsCommand (map string_bytes words.now)) }
{
    if are_short(words) {
        form_of(words)
    } else {
        None
    }
}

/// The command of words that are short enough.
fn form_of(words: &[String]) -> Option<Command<'_>>
    requires { All (λ w. string_len w < 2 ^ 32) words.now }
    ensures { MatchOption result (HasNoForm (map string_bytes words.now)) (IsCommand (map string_bytes words.now)) }
{
    match words {
        [command, file] => file_form(command.as_str(), file.as_str()),
        [command, file, name, fuel, values @ ..] => call_form(
            command.as_str(),
            file.as_str(),
            name.as_str(),
            fuel.as_str(),
            values,
        ),
        _ => None,
    }
}

/// The command of two words.
fn file_form<'a>(command: &str, file: &'a str) -> Option<Command<'a>>
    ensures { MatchOption result (IsNoFileForm command.now) (IsFileForm command.now file.now) }
{
    if command == "check" {
        Some(Command::Check(file))
    } else if command == "translate" {
        Some(Command::Translate(file))
    } else {
        None
    }
}

/// The command of at least four words.
fn call_form<'a>(
    command: &str,
    file: &'a str,
    name: &'a str,
    fuel: &str,
    values: &'a [String],
) -> Option<Command<'a>>
    ensures { MatchOption result (IsNoCall command.now fuel.now) (IsCallOf command.now file.now name.now fuel.now (map string_bytes values.now)) }
{
    let is_run = command == "run";
    if !is_run && command != "eval" {
        return None;
    }
    let fuel = fuel_number(fuel.as_bytes())?;
    if is_run {
        Some(Command::Run(file, name, fuel, values))
    } else {
        Some(Command::Eval(file, name, fuel, values))
    }
}

/// Whether each word has fewer than 2^32 bytes.
fn are_short(words: &[String]) -> bool
    ensures { IsTrue result ↔ All (λ w. string_len w < 2 ^ 32) words.now }
{
    words.iter().all(|word| word.len() < 4_294_967_296)
}
