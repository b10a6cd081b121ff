// What holds of made scripts, as the contract of a function that does nothing.
ghost use Rattle.made_scripts.specs.Laws.{CountsLines, HasNoLineFeed, IsCutBack, IsShort};
ghost use Rattle.made_scripts.specs.Worked.{ScriptOfTwo};

/// The made script of n is 13 + 4 n lines. No line has a line feed in it, so there is one way only to cut the
/// script into lines, and none is longer than 4096 bytes.
pub fn made_scripts_are_lines()
    ensures count { CountsLines }
    ensures clean { HasNoLineFeed }
    ensures cut { IsCutBack }
    ensures short { IsShort }
{}

/// The made script of 2, written out.
pub fn a_made_script_is_worked()
    ensures { ScriptOfTwo }
{}
