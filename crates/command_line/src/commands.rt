//! The command line as it is defined for `clap`.

ghost use Rattle.std.specs.Prelude.{◌≡◌, IfOk};
ghost use Rattle.clap.specs.Words.{app_of};
ghost use Rattle.command_line.specs.CommandLine.{command_line, program};

use crate::subcommands::definitions;
use clap::Command;
use command_words::{Letters, with_subcommands};
use std::alloc::{AllocError, Global};

const ABOUT: &str = "\
Double-dummy results of bridge deals: how many tricks each side takes
when all four hands are seen and both sides play best.";

/// What follows the program's name where `--version` is given.
const VERSION: &str = "\
1.1.0
certificates: reads and writes versions 1 and 2
evidence: reads and writes version 1
evidence of cards: reads and writes version 1
evidence of plays: reads and writes version 1
boards: reads and writes PBN 2.1";

const EXAMPLE: &str = "\
Examples:
  ddfarm table club.pbn >tables.pbn
writes the tables of all boards of a tournament; with --evidence club.dde it keeps the
evidence for them.
  ddfarm audit club.dde club.pbn >tables.pbn
writes what evidence shows of them: it is checked, and nothing is searched.
  ddfarm solve \"N:A... K... Q... J...\" N NT >answer.txt
  ddfarm check \"N:A... K... Q... J...\" N NT <answer.txt
  ddfarm line \"N:A... K... Q... J...\" N NT <answer.txt
  ddfarm play \"N:A... K... Q... J...\" N NT answer.txt
find how many tricks declarer's side takes of four hands, check that, show how, a trick
a line, and let you try to take more.
  ddfarm leads club.pbn >leads.txt
  ddfarm cards \"N:AQ... 65... 32... K4...\" S NT
  ddfarm plays club.pbn >plays.txt
print the tricks after each opening lead of a tournament, after each card that may be
played, and after each card of recorded plays.

`ddfarm table --help` tells more of `table`, and so of each command.";

/// The command line that is understood.
pub(crate) fn command<'a>(alloc: Global, letters: Letters<'a>) -> Result<Command<'a>, AllocError>
    ensures { IfOk result (λ made. app_of made ≡ command_line letters.entry) }
{
    let definitions = definitions();
    with_subcommands(alloc, letters, program(alloc)?, definitions.as_slice())
}

/// The program without its subcommands.
fn program<'a>(alloc: Global) -> Result<Command<'a>, AllocError>
    ensures { IfOk result (λ made. app_of made ≡ program) }
{
    let command = Command::new(alloc, "ddfarm")
        .about(ABOUT)
        .version(VERSION)
        .after_help(EXAMPLE)
        .subcommand_required(true)
        .arg_required_else_help(true)
        .disable_help_subcommand(true);
    command.bin_name("ddfarm")
}
