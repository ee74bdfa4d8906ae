//! A text in one line.
ghost use Rattle.std.specs.Prelude.{◌≡◌, ◌++◌, IfOk, OnOk, encode_utf8_all, string_bytes};
ghost use Rattle.np_frame.specs.OneLine as spec;

use std::alloc::{AllocError, Global};

/// The text with its control characters as Rust writes them in a string, as `\n`. All else stays as it is.
pub(crate) fn one_line(alloc: Global, text: &str) -> Result<String, AllocError>
    ensures { IfOk result (λ line. string_bytes line ≡ spec.one_line text.now) }
{
    let mut line = String::with_capacity(alloc, text.len())?;
    for c in text.chars() {
        add(&mut line, c)?;
    }
    Ok(line)
}

// Adds a character so.
fn add(line: &mut String, c: char) -> Result<(), AllocError>
    ensures { OnOk result (string_bytes line.new ≡ string_bytes line.old ++ encode_utf8_all (spec.in_one_line c)) }
{
    if !c.is_control() {
        return line.push(c);
    }
    for escaped in c.escape_default() {
        line.push(escaped)?;
    }
    Ok(())
}
