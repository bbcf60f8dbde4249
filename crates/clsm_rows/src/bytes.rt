//! The bytes that the texts of a row write.

use std::alloc::{AllocError, Global};

/// The bytes that a text writes. Lines are separated by `; `, and each ends in a line feed. In a line
/// `\xHH` is the byte of two hexadecimal digits, `\*N{TEXT}` is a text so many times, and `\c` at its end
/// leaves out its line feed. A text that is empty has no lines.
pub(crate) fn bytes_of(alloc: Global, text: &str) -> Result<Vec<u8>, AllocError> {
    let mut bytes = Vec::new(alloc);
    if text.is_empty() {
        return Ok(bytes);
    }
    for line in text.split("; ") {
        match line.strip_suffix("\\c") {
            Some(line) => push_line(&mut bytes, line)?,
            None => {
                push_line(&mut bytes, line)?;
                bytes.push(b'\n')?;
            }
        }
    }
    Ok(bytes)
}

fn push_line(bytes: &mut Vec<u8>, line: &str) -> Result<(), AllocError> {
    let (plain, marked) = line.split_once('\\').unwrap_or((line, ""));
    bytes.extend_from_slice(plain.as_bytes())?;
    if marked.is_empty() {
        return Ok(());
    }
    for part in marked.split('\\') {
        push_part(bytes, part)?;
    }
    Ok(())
}

/// Pushes what stands behind a backslash, up to the next one.
fn push_part(bytes: &mut Vec<u8>, part: &str) -> Result<(), AllocError> {
    if let Some(rest) = part.strip_prefix("x") {
        if let (Some(digits), Some(rest)) = (rest.get(..2), rest.get(2..)) {
            bytes.push(u8::from_str_radix(digits, 16).unwrap_or(b'?'))?;
            return bytes.extend_from_slice(rest.as_bytes());
        }
    }
    if let Some(rest) = part.strip_prefix("*") {
        let (count, rest) = rest.split_once('{').unwrap_or((rest, ""));
        let (repeated, rest) = rest.split_once('}').unwrap_or((rest, ""));
        let count: u32 = count.parse().unwrap_or(0);
        for _ in 0..count {
            bytes.extend_from_slice(repeated.as_bytes())?;
        }
        return bytes.extend_from_slice(rest.as_bytes());
    }
    bytes.extend_from_slice(part.as_bytes())
}
