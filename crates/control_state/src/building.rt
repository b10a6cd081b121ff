// Texts made of a text.
ghost use Rattle.std.specs.Prelude.{◌≡◌, ◌++◌, ◌&&◌, IfOk, OnOk, string_bytes};
ghost use Rattle.form_controls.specs.Texts.{collapsed as collapsed_text, normalized as normalized_text};
ghost use Rattle.form_controls.specs.Texts.{without_newlines as text_without_newlines};
ghost use Rattle.control_state.specs.Reading.{collapsed_char, kept_char, normal_char};

use ce_base::{NoMemory, Text};
use std::alloc::Global;

/// The text without its U+000A LF and U+000D CR (Infra Standard, "strip newlines"). NoMemory: memory was refused.
pub fn without_newlines(alloc: Global, text: &str) -> Result<Text, NoMemory>
    ensures { IfOk result (λ t. t ≡ text_without_newlines text.now) }
{
    let mut made = String::new(alloc);
    for c in text.chars() {
        put_kept(&mut made, c)?;
    }
    Ok(Text::from(made))
}

// Puts one character of a text, unless it is a newline.
fn put_kept(made: &mut String, c: char) -> Result<(), NoMemory>
    ensures { OnOk result (string_bytes made.new ≡ string_bytes made.old ++ kept_char c) }
{
    if c != '\r' && c != '\n' {
        made.push(c)?;
    }
    Ok(())
}

/// The text with a U+000A LF for each U+000D CR U+000A LF and each other U+000D CR (Infra Standard, "normalize
/// newlines"). NoMemory: memory was refused.
pub fn normalized(alloc: Global, text: &str) -> Result<Text, NoMemory>
    ensures { IfOk result (λ t. t ≡ normalized_text text.now) }
{
    let mut made = String::new(alloc);
    let mut behind = false;
    for c in text.chars() {
        put_normal(&mut made, behind, c)?;
        behind = c == '\r';
    }
    Ok(Text::from(made))
}

// Puts one character of a text, which stands right behind a U+000D CR or not.
fn put_normal(made: &mut String, behind: bool, c: char) -> Result<(), NoMemory>
    ensures { OnOk result (string_bytes made.new ≡ string_bytes made.old ++ normal_char behind c) }
{
    if c == '\r' {
        made.push('\n')?;
    } else if c != '\n' || !behind {
        made.push(c)?;
    }
    Ok(())
}

/// The words of the text, which ASCII white space parts, with one U+0020 SPACE between them (Infra Standard, "strip and collapse
/// ASCII whitespace"). NoMemory: memory was refused.
pub fn collapsed(alloc: Global, text: &str) -> Result<Text, NoMemory>
    ensures { IfOk result (λ t. t ≡ collapsed_text text.now) }
{
    let mut made = String::new(alloc);
    let mut begun = false;
    let mut apart = false;
    for c in text.chars() {
        put_collapsed(&mut made, begun, apart, c)?;
        apart = c.is_ascii_whitespace();
        begun |= !apart;
    }
    Ok(Text::from(made))
}

// Puts one character of a text, where something was put before it or not, and white space stands right before it or not.
fn put_collapsed(made: &mut String, begun: bool, apart: bool, c: char) -> Result<(), NoMemory>
    ensures { OnOk result (string_bytes made.new ≡ string_bytes made.old ++ collapsed_char (begun && apart) c) }
{
    if !c.is_ascii_whitespace() {
        if begun && apart {
            made.push(' ')?;
        }
        made.push(c)?;
    }
    Ok(())
}
