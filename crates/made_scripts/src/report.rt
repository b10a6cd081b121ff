// The figures of a run as text.
ghost use Rattle.std.specs.Prelude.{◌≡◌, ◌++◌, codes, string_bytes, IfOk, OnOk};
ghost use Rattle.made_scripts.specs.Summary.{figure, end_line, summary};

use crate::Figures;
use ce_base::{NoMemory, Text};
use std::alloc::Global;
use std::fmt::Write;

/// The summary of a run, of six lines: of how many elements its script was made, how many lines the script and
/// the transcript have, how many lines of the transcript tell a call, how much fuel was used, and whether the run
/// ended for want of it. NoMemory: memory was refused.
#[tactic(auto, unfolding(crate::specs::Summary::summary))]
pub fn summary(
    alloc: Global,
    made: u32,
    script_lines: u64,
    figures: &Figures,
    fuel_used: u32,
    spent: bool,
) -> Result<Text, NoMemory>
    ensures { IfOk result (λ text. text ≡ summary made script_lines figures.now fuel_used spent) }
{
    let mut text = String::new(alloc);
    put_figure(&mut text, "made", u64::from(made))?;
    put_figure(&mut text, "script lines", script_lines)?;
    put_figure(&mut text, "transcript lines", figures.lines())?;
    put_figure(&mut text, "calls", figures.calls())?;
    put_figure(&mut text, "fuel used", u64::from(fuel_used))?;
    text.push_str(end_line(spent))?;
    Ok(Text::from(text))
}

// Puts a line of a name and a number behind.
fn put_figure(text: &mut String, name: &str, number: u64) -> Result<(), NoMemory>
    ensures { OnOk result (string_bytes text.new ≡ string_bytes text.old ++ figure name.now number) }
{
    text.push_str(name)?;
    write!(text, " {number}\n")?;
    Ok(())
}

fn end_line(spent: bool) -> &'static str
    ensures { result.now ≡ end_line spent }
{
    if spent { "end fuel\n" } else { "end done\n" }
}
