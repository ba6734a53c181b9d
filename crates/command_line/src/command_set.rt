//! The commands, as `clap` reads them: a subcommand for each.
ghost use Rattle.std.specs.Prelude.{◌≡◌, false, [], ◌∷◌, codes, take, IfOk};
ghost use Rattle.clap.specs.Walk.{rule_of};
ghost use Rattle.clap.specs.Simple.{app_of, with_rule};
ghost use Rattle.clap.specs.declared.builder.command.Command.TheViews.{out-Command};
ghost use Rattle.command_line.specs.CommandSet.{command_with, commands, no_relax_rule, text_rule, tool_app, tool_of};

use clap::{Arg, ArgAction, Command};
use std::alloc::{AllocError, Global};

/// A required word.
fn text_argument<'a>(alloc: Global, id: &'a str) -> Arg<'a>
    ensures rule { rule_of result ≡ text_rule id.entry.now }
    ensures local { result.global ≡ false }
{
    Arg::new(alloc, id).required(true)
}

/// `--no-relax`.
fn no_relax_flag<'a>(alloc: Global) -> Arg<'a>
    ensures rule { rule_of result ≡ no_relax_rule }
    ensures local { result.global ≡ false }
{
    Arg::new(alloc, "no-relax")
        .long("no-relax")
        .action(ArgAction::SetTrue)
}

/// `run JOB [--no-relax]`.
fn run_command<'a>(alloc: Global) -> Result<Command<'a>, AllocError>
    ensures app { IfOk result (λ command. app_of command
        ≡ with_rule (command_with (codes "run") (codes "JOB" ∷ [])) no_relax_rule) }
    ensures local { IfOk result (λ command. (out-Command command).has_globals ≡ false) }
{
    Command::new(alloc, "run")
        .arg(text_argument(alloc, "JOB"))?
        .arg(no_relax_flag(alloc))
}

/// `race JOB [--no-relax]`.
fn race_command<'a>(alloc: Global) -> Result<Command<'a>, AllocError>
    ensures app { IfOk result (λ command. app_of command
        ≡ with_rule (command_with (codes "race") (codes "JOB" ∷ [])) no_relax_rule) }
    ensures local { IfOk result (λ command. (out-Command command).has_globals ≡ false) }
{
    Command::new(alloc, "race")
        .arg(text_argument(alloc, "JOB"))?
        .arg(no_relax_flag(alloc))
}

/// `link JOB IMAGE OUT [--no-relax]`.
fn link_command<'a>(alloc: Global) -> Result<Command<'a>, AllocError>
    ensures app { IfOk result (λ command. app_of command
        ≡ with_rule (command_with (codes "link") (codes "JOB" ∷ codes "IMAGE" ∷ codes "OUT" ∷ [])) no_relax_rule) }
    ensures local { IfOk result (λ command. (out-Command command).has_globals ≡ false) }
{
    Command::new(alloc, "link")
        .arg(text_argument(alloc, "JOB"))?
        .arg(text_argument(alloc, "IMAGE"))?
        .arg(text_argument(alloc, "OUT"))?
        .arg(no_relax_flag(alloc))
}

/// `sites JOB IMAGE`.
fn sites_command<'a>(alloc: Global) -> Result<Command<'a>, AllocError>
    ensures app { IfOk result (λ command. app_of command
        ≡ command_with (codes "sites") (codes "JOB" ∷ codes "IMAGE" ∷ [])) }
    ensures local { IfOk result (λ command. (out-Command command).has_globals ≡ false) }
{
    Command::new(alloc, "sites")
        .arg(text_argument(alloc, "JOB"))?
        .arg(text_argument(alloc, "IMAGE"))
}

/// `show FILE`.
fn show_command<'a>(alloc: Global) -> Result<Command<'a>, AllocError>
    ensures app { IfOk result (λ command. app_of command ≡ command_with (codes "show") (codes "FILE" ∷ [])) }
    ensures local { IfOk result (λ command. (out-Command command).has_globals ≡ false) }
{
    Command::new(alloc, "show").arg(text_argument(alloc, "FILE"))
}

/// `check JOB`.
fn check_command<'a>(alloc: Global) -> Result<Command<'a>, AllocError>
    ensures app { IfOk result (λ command. app_of command ≡ command_with (codes "check") (codes "JOB" ∷ [])) }
    ensures local { IfOk result (λ command. (out-Command command).has_globals ≡ false) }
{
    Command::new(alloc, "check").arg(text_argument(alloc, "JOB"))
}

/// `gen N`.
fn gen_command<'a>(alloc: Global) -> Result<Command<'a>, AllocError>
    ensures app { IfOk result (λ command. app_of command ≡ command_with (codes "gen") (codes "N" ∷ [])) }
    ensures local { IfOk result (λ command. (out-Command command).has_globals ≡ false) }
{
    Command::new(alloc, "gen").arg(text_argument(alloc, "N"))
}

/// The linker's command line without its commands: the first word is one.
fn bare_command<'a>(alloc: Global) -> Command<'a>
    ensures { app_of result ≡ tool_of [] }
{
    Command::new(alloc, "tlsld")
        .no_binary_name(true)
        .subcommand_required(true)
        .disable_help_subcommand(true)
}

/// The linker's command line with the commands that run a job's threads.
fn running_command<'a>(alloc: Global) -> Result<Command<'a>, AllocError>
    ensures { IfOk result (λ command. app_of command ≡ tool_of (take 2 commands)) }
{
    bare_command(alloc)
        .subcommand(run_command(alloc)?)?
        .subcommand(race_command(alloc)?)
}

/// The linker's command line with the commands that link images.
fn linking_command<'a>(alloc: Global) -> Result<Command<'a>, AllocError>
    ensures { IfOk result (λ command. app_of command ≡ tool_of (take 3 commands)) }
{
    running_command(alloc)?.subcommand(link_command(alloc)?)
}

/// The linker's command line with the commands that read files.
fn reading_command<'a>(alloc: Global) -> Result<Command<'a>, AllocError>
    ensures { IfOk result (λ command. app_of command ≡ tool_of (take 5 commands)) }
{
    linking_command(alloc)?
        .subcommand(sites_command(alloc)?)?
        .subcommand(show_command(alloc)?)
}

/// The linker's command line.
pub(crate) fn tool_command<'a>(alloc: Global) -> Result<Command<'a>, AllocError>
    ensures { IfOk result (λ command. app_of command ≡ tool_app) }
{
    reading_command(alloc)?
        .subcommand(check_command(alloc)?)?
        .subcommand(gen_command(alloc)?)
}
