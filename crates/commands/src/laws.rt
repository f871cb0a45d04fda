//! Laws of what words say, each the contract of a function that does nothing.

ghost use Rattle.std.specs.Prelude.{◌≡◌, ◌∷◌, [], ℕ, List, true, false, codes};
ghost use Rattle.commands.specs.Says.{Says};
ghost use Rattle.commands.specs.declared.command.Command.{Command};
ghost use Rattle.commands.specs.declared.command.Command.TheVariants.{Sim, Version};

/// Words say at most one command.
pub fn one_reading()
    ensures { (words : List (List ℕ)) (command other : Command) → Says words command → Says words other → command ≡ other }
{}

/// What some words say that are written out.
pub fn words_written_out()
    ensures sim { Says (codes "sim" ∷ []) (Sim false) }
    ensures wire { Says (codes "sim" ∷ codes "--wire" ∷ []) (Sim true) }
    ensures version { Says (codes "--version" ∷ []) Version }
{}
