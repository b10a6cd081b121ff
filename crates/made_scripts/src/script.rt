// A whole made script.
ghost use Rattle.std.specs.Prelude.{◌≡◌, IfOk};
ghost use Rattle.made_scripts.specs.Made.{made_script};

use crate::Maker;
use ce_base::{NoMemory, Text};
use std::alloc::Global;

/// The made script of n as one text, each line with its line feed. NoMemory: memory was refused.
pub fn made_script(alloc: Global, n: u32) -> Result<Text, NoMemory>
    ensures { IfOk result (λ script. script ≡ made_script n) }
{
    let mut script = String::new(alloc);
    let mut maker = Maker::of(n);
    while let Some(line) = maker.next_line(alloc)? {
        script.push_str(line.as_str())?;
        script.push_str("\n")?;
    }
    Ok(Text::from(script))
}
