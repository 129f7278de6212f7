//! The law of what words say; no function here does anything.

ghost use Rattle.std.specs.Prelude.{◌≡◌, List};
ghost use Rattle.clap.specs.Walk.{Text};
ghost use Rattle.words_line.specs.Said.{Says};
ghost use Rattle.words_line.specs.declared.options.Options.{Options};

/// Words say one value of the options at most.
pub fn words_say_one()
    ensures { (words : List Text) (one other : Options) → Says words one → Says words other → one ≡ other }
{}
