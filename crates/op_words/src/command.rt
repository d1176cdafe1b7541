ghost use Rattle.std.specs.Prelude.{IfOk};
ghost use Rattle.clap.specs.Words.{app_of};
ghost use Rattle.op_words.specs.Commands.{IsWordsCommand};

use clap::{Arg, ArgAction, Command};
use std::alloc::{AllocError, Global};

static PARTS: [&str; 3] = ["alertmanager", "prometheus", "rules"];

/// How `clap` reads the words after the command: DIR, `--part PART` and `--each`, whatever the command is. There is
/// no option for help.
pub(crate) fn words_command<'a>(alloc: Global) -> Result<Command<'a>, AllocError>
    ensures { IfOk result (λ command. IsWordsCommand (app_of command)) }
{
    let dir = Arg::new(alloc, "dir").required(true);
    let part = Arg::new(alloc, "part")
        .long("part")
        .value_parser(PARTS.as_slice());
    let each = Arg::new(alloc, "each")
        .long("each")
        .action(ArgAction::SetTrue);
    Command::new(alloc, "operator")
        .no_binary_name(true)
        .disable_help_flag(true)
        .arg(dir)?
        .arg(part)?
        .arg(each)
}
