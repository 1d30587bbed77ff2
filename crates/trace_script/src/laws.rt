//! What holds of scripts, apart from any code.

ghost use Rattle.std.specs.Prelude.{◌≡◌, ℕ, List, Some, IfSome};
ghost use Rattle.trace_script.specs.declared.command.Command.{Command};
ghost use Rattle.trace_script.specs.Script.{command_of};
ghost use Rattle.trace_script.specs.Spelling.{IsSayable, spelling};

/// The spelling of each command that a script line can say reads back as that command.
pub fn spellings_read_back()
    ensures { (command : Command) → IsSayable command → command_of (spelling command) ≡ Some command }
{}

/// A line says nothing but such commands.
pub fn commands_are_sayable()
    ensures { (line : List ℕ) → IfSome (command_of line) IsSayable }
{}
