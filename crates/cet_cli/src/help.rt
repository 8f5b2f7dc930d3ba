//! The help.

ghost use Rattle.std.specs.Prelude.{◌≡◌};
ghost use Rattle.cet_cli.specs.Help.{help};

/// The commands and their options, a line each.
const HELP: &str = "\
cetvm asm [--runtime]
cetvm dis
cetvm check
cetvm run [common]
cetvm replay [common] --schedule ITEMS or --mix NUMBER
cetvm bench NUMBER
cetvm smp [common] [--workers NUMBER]
common: --limit NUMBER --procs NUMBER --trace full or last --signals ITEMS
";

/// What a user is told of the commands and their options, a line for each command.
pub fn help_text() -> &'static str
    ensures { result.now ≡ help }
{
    HELP
}
