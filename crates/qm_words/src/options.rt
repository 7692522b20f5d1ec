//! Options with one value each, read by clap.

ghost use Rattle.std.specs.Prelude.{◌≡◌, [], false, map, string_bytes, IfOk, IfErr};
ghost use Rattle.std.specs.List.{list_any};
ghost use Rattle.clap.specs.Matches.{found_of};
ghost use Rattle.clap.specs.Simple.{app_of, with_rule};
ghost use Rattle.clap.specs.Values.{kind_of};
ghost use Rattle.clap.specs.declared.error.kind.ErrorKind.TheVariants.{OutOfMemory};
ghost use Rattle.qm_words.specs.Parsing.{is_end, is_known, option_rule, Reads, Refuses};

use clap::error::ErrorKind;
use clap::{Arg, ArgMatches, Command, Error};
use def_run::WordsFail;
use std::alloc::Global;

/// The values of these options, where the words are each of them once. Their names have no hyphens and are not empty.
pub(crate) fn read_options<'a>(
    alloc: Global,
    names: &'a [&'a str],
    words: &'a [String],
) -> Result<ArgMatches<'a>, WordsFail>
    requires { is_known (map (λ name. name.now) names.now) [] ≡ false }
    ensures reads { IfOk result (λ m.
        Reads (map (λ name. name.now) names.now) (map string_bytes words.now) (found_of m)) }
    ensures refuses { IfErr result (λ fail. fail ≡ WordsFail.Usage
        → Refuses (map (λ name. name.now) names.now) (map string_bytes words.now)) }
{
    // clap takes a `--` behind the last value, and no line has one.
    if has_end(words) {
        return Err(WordsFail::Usage);
    }
    let mut command = Command::new(alloc, "quadq")
        .no_binary_name(true)
        .disable_help_flag(true);
    for name in names {
        command = with_option(alloc, command, name)?;
    }
    match command.try_get_matches_from(words) {
        Ok(matches) => Ok(matches),
        Err(error) => Err(cause(&error)),
    }
}

/// The command with one more option, which must stand and has one value.
fn with_option<'a>(
    alloc: Global,
    command: Command<'a>,
    name: &'a str,
) -> Result<Command<'a>, WordsFail>
    ensures shape { IfOk result (λ r. app_of r ≡ with_rule (app_of command.entry) (option_rule name.now)) }
    ensures memory { IfErr result (λ fail. fail ≡ WordsFail.Memory) }
{
    let option = Arg::new(alloc, name).long(name).required(true);
    Ok(command.arg(option)?)
}

/// Whether a word is `--`.
fn has_end(words: &[String]) -> bool
    ensures { result ≡ list_any is_end (map string_bytes words.now) }
{
    for word in words {
        if is_end(word) {
            return true;
        }
    }
    false
}

fn is_end(word: &String) -> bool
    ensures { result ≡ is_end (string_bytes word.now) }
{
    word.as_str() == "--"
}

/// Why clap read nothing.
fn cause(error: &Error) -> WordsFail
    ensures memory { kind_of error.now ≡ OutOfMemory → result ≡ WordsFail.Memory }
    ensures usage { result ≡ WordsFail.Memory → kind_of error.now ≡ OutOfMemory }
{
    match error.kind() {
        ErrorKind::OutOfMemory => WordsFail::Memory,
        _ => WordsFail::Usage,
    }
}
