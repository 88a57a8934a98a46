//! Texts as a script tells them: lines that end at `;`. A line `@NAME` stands for those of a named
//! text, and `*N LINE` for N lines.
use crate::words::cut;
use std::alloc::{AllocError, Global};

/// A text with its name.
#[derive(Drop)]
pub struct Named {
    name: String,
    text: String,
}

/// The script with a line for each entry, after a line feed. A line that begins with two spaces
/// goes on the entry above it, with `;` at its end. Empty lines and those that begin with `#` are
/// left out.
pub fn folded(alloc: Global, script: &str) -> Result<String, AllocError> {
    let mut text = String::new(alloc);
    for line in script.lines() {
        if line.starts_with("  ") {
            text.push(' ')?;
            text.push_str(line.trim())?;
            text.push(';')?;
        } else if !line.is_empty() && !line.starts_with('#') {
            text.push('\n')?;
            text.push_str(line)?;
        }
    }
    Ok(text)
}

/// The texts that the script names, each by a line `text NAME TEXT`. Its lines may stand for those
/// of the texts before it.
pub fn texts_of(alloc: Global, script: &str) -> Result<Vec<Named>, AllocError> {
    let mut texts = Vec::new(alloc);
    for line in script.lines() {
        if let Some(told) = line.strip_prefix("text ") {
            let (name, told) = cut(told);
            let text = written_out(alloc, &texts, told)?;
            let name = String::from_str(alloc, name)?;
            texts.push(Named { name, text })?;
        }
    }
    Ok(texts)
}

/// The lines of the text with this name, without the last line feed: a word that says so where none
/// has it.
pub fn lines_of<'a>(texts: &'a [Named], name: &str) -> &'a str {
    for text in texts {
        if text.name.as_str() == name {
            let lines = text.text.as_str();
            return lines.strip_suffix("\n").unwrap_or(lines);
        }
    }
    "no text of this name"
}

/// The text that is told. Spaces at both ends of a line don't count; `\s`, `\t`, `\r` and `\d` are
/// a space, a tab, a carriage return and the sign of number 127.
pub fn written_out(alloc: Global, texts: &[Named], told: &str) -> Result<String, AllocError> {
    let mut text = String::new(alloc);
    let mut is_later = false;
    for line in told.split(';') {
        if is_later {
            text.push('\n')?;
        }
        is_later = true;
        let line = line.trim();
        if let Some(name) = line.strip_prefix("@") {
            text.push_str(lines_of(texts, name))?;
        } else if let Some(rest) = line.strip_prefix("*") {
            let (count, line) = cut(rest);
            push_lines(&mut text, count.parse::<u32>().unwrap_or(0), line)?;
        } else {
            push_signs(&mut text, line)?;
        }
    }
    Ok(text)
}

/// Adds a line so many times.
fn push_lines(text: &mut String, count: u32, line: &str) -> Result<(), AllocError> {
    for number in 0..count {
        if number > 0 {
            text.push('\n')?;
        }
        push_signs(text, line)?;
    }
    Ok(())
}

/// Adds the signs of a line.
fn push_signs(text: &mut String, told: &str) -> Result<(), AllocError> {
    let mut is_named = false;
    for sign in told.chars() {
        if is_named {
            text.push(match sign {
                's' => ' ',
                't' => '\t',
                'r' => '\r',
                'd' => '\u{7f}',
                _ => sign,
            })?;
        } else if sign != '\\' {
            text.push(sign)?;
        }
        is_named = !is_named && sign == '\\';
    }
    Ok(())
}
