ghost use Rattle.std.specs.Prelude.{◌≡◌, ◌≢◌, map, string_bytes, Some, None, IfOk, IfErr, Bool, codes};
ghost use Rattle.clap.specs.Words.{found_of, one_text};
ghost use Rattle.op_words.specs.Readings as spec;
ghost use Rattle.op_words.specs.Commands.{flag_text, given_by};

use crate::command::words_command;
use crate::reading::{Given, Reading, part_named};
use clap::ArgMatches;
use clap::error::ErrorKind;
use op_base::{NoMemory, Text};
use std::alloc::Global;
use thiserror::Error;

/// Why words weren't read.
#[derive(Clone, Copy, Debug, PartialEq, Eq, Error)]
pub enum WordsFault {
    /// They ask for nothing that the program does.
    #[error("the words have no reading")]
    Usage,
    #[error("no memory")]
    NoMemory,
}

impl From<NoMemory> for WordsFault {
    ghost use Rattle.std.specs.Prelude.{◌≡◌};
    ghost use Rattle.op_words.specs.declared.words.WordsFault.TheVariants.{NoMemory as no_memory};

    ghost from_gives = { λ _ fault. fault ≡ no_memory };

    fn from(_refused: NoMemory) -> Self {
        WordsFault::NoMemory
    }
}

/// Reads the words after the program's name: `compile DIR [--part PART]`, `apply DIR [--each] [--part PART]` or
/// `run DIR`, with the options before, behind or between. It reads no folder.
pub fn read_words(alloc: Global, words: &[String]) -> Result<Reading, WordsFault>
    ensures ok { IfOk result (λ reading. spec.reading_of (map string_bytes words.now) ≡ Some reading) }
    ensures usage { IfErr result (λ fault. fault ≢ WordsFault.NoMemory
        → spec.reading_of (map string_bytes words.now) ≡ None) }
{
    match words {
        [] => Err(WordsFault::Usage),
        [command, rest @ ..] => reading_after(alloc, command.as_str(), rest),
    }
}

fn reading_after(alloc: Global, command: &str, words: &[String]) -> Result<Reading, WordsFault>
    ensures ok { IfOk result (λ reading.
        spec.reading_after command.now (map string_bytes words.now) ≡ Some reading) }
    ensures usage { IfErr result (λ fault. fault ≢ WordsFault.NoMemory
        → spec.reading_after command.now (map string_bytes words.now) ≡ None) }
{
    match given_in(alloc, words)? {
        Some(given) => match given.read_by(command) {
            Some(reading) => Ok(reading),
            None => Err(WordsFault::Usage),
        },
        None => Err(WordsFault::Usage),
    }
}

// `clap` refuses words by many kinds of error, which all come to the same; want of memory alone is told apart.
fn given_in(alloc: Global, words: &[String]) -> Result<Option<Given>, NoMemory>
    ensures { IfOk result (λ given. given ≡ spec.given_in (map string_bytes words.now)) }
{
    match words_command(alloc)?.try_get_matches_from(words) {
        Ok(matches) => given_by(alloc, &matches),
        Err(error) => match error.kind() {
            ErrorKind::OutOfMemory => Err(NoMemory),
            _ => Ok(None),
        },
    }
}

fn given_by(alloc: Global, matches: &ArgMatches<'_>) -> Result<Option<Given>, NoMemory>
    ensures { IfOk result (λ given. (each : Bool)
        → one_text (found_of matches.now) (codes "each") ≡ Some (flag_text each)
        → given ≡ given_by (found_of matches.now) each) }
{
    let Some(dir) = matches.get_str("dir") else {
        return Ok(None);
    };
    let part = matches.get_str("part").and_then(part_named);
    let each = matches.get_flag("each");
    Ok(Some(Given {
        dir: Text::from_str(alloc, dir)?,
        part,
        each,
    }))
}
