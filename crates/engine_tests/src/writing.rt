// Lines that are read and written again, and copies of their actions.
mod tables;

ghost use Rattle.std.specs.Prelude.{◌≡◌, IfOk};
ghost use Rattle.rule_lines.specs.Acts.{Declares, On, act_of, line_of};
ghost use Rattle.rule_script.specs.Canonical.{CanBeSpelled};

use crate::rows::same;
use ce_base::Text;
use rule_lines::{Action, ClassPart, Line};
use rule_script::{read_line, write_line};
use rule_tokens::{CallName, LineRefused};
use std::alloc::Global;
use std::process::Abort;
use std::test::Fail;
use tables::*;

fn copy_of(
    alloc: Global,
    class: &Text,
    call: CallName,
    action: &Action,
) -> Result<Line, LineRefused>
    ensures { IfOk result (λ x. line_of x ≡ Declares (On class.now call (act_of action.now))) }
{
    let class = class.copy(alloc)?;
    let action = action.copy(alloc)?;
    Ok(Line::Part(ClassPart::On {
        class,
        call,
        action,
    }))
}

fn written(alloc: Global, line: &Line) -> Result<Text, Fail>
    requires { CanBeSpelled (line_of line.now) }
{
    match write_line(alloc, line) {
        Ok(text) => Ok(text),
        Err(_) => Err(Fail::from("no memory")),
    }
}

fn written_copy(alloc: Global, class: &Text, call: CallName, action: &Action) -> Result<Text, Fail>
    requires { CanBeSpelled (Declares (On class.now call (act_of action.now))) }
{
    let copy = copy_of(alloc, class, call, action);
    match &copy {
        Ok(x) => written(alloc, x),
        Err(_) => Err(Fail::from("no copy")),
    }
}

// A line as it is written, with a copy of its action where it has one.
fn copied(alloc: Global, line: &Line) -> Result<Text, Fail>
    requires { CanBeSpelled (line_of line.now) }
{
    match line {
        Line::Part(
            ClassPart::On {
                class,
                call,
                action,
            },
        ) => written_copy(alloc, class, *call, action),
        _ => written(alloc, line),
    }
}

// A line as it is written once it is read and its action is copied.
fn again(alloc: Global, line: &str) -> Result<Text, Fail> {
    let read = read_line(alloc, line.as_bytes());
    match &read {
        Ok(x) => copied(alloc, x),
        Err(_) => Err(Fail::from("refused")),
    }
}

// A line, and how it is written; as it stands where a row has one side.
fn line_and_form(row: &str) -> (&str, &str) {
    match row.split_once(" => ") {
        Some(sides) => sides,
        None => (row, row),
    }
}

fn compare_row(rt: &impl Abort, alloc: Global, row: &str) -> Result<(), Fail> {
    let (line, canonical) = line_and_form(row);
    let text = again(alloc, line)?;
    same(rt, text.as_str(), canonical, line);
    same(rt, again(alloc, text.as_str())?.as_str(), canonical, line);
    Ok(())
}

// Sees that each line is written as the canonical one behind the `=>`, or as it stands, and the canonical one as it stands.
fn compare(rt: &impl Abort, alloc: Global, rows: &str) -> Result<(), Fail> {
    for row in rows.lines() {
        compare_row(rt, alloc, row)?;
    }
    Ok(())
}

// Operations stand alone, and as actions.
#[test]
fn lines_are_written_canonically(rt: HostRuntime) -> Result<(), Fail> {
    let actions = OPERATIONS.replace(rt.alloc(), "\n", "\non A connected : ")?;
    compare(&rt, rt.alloc(), actions.as_str())?;
    compare(&rt, rt.alloc(), OPERATIONS)?;
    compare(&rt, rt.alloc(), ACTIONS)?;
    compare(&rt, rt.alloc(), CLASSES)?;
    compare(&rt, rt.alloc(), SPELLINGS)?;
    compare(&rt, rt.alloc(), RATING)
}

#[test]
fn long_lines_are_written(rt: HostRuntime) -> Result<(), Fail> {
    let alloc = rt.alloc();
    let quotes = "\\\"".repeat(alloc, 2000)?;
    let letters = "a".repeat(alloc, 4086)?;
    let entries = " \"n\" \"v\"".repeat(alloc, 32)?;
    let rows = format!(in alloc;
        "text $t \"{quotes}\"\ntext $t \"{letters}\"\nformlist $a{entries}"
    )?;
    compare(&rt, alloc, rows.as_str())
}
