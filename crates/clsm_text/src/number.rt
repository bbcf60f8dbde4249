//! Numbers and values, read from text.
ghost use Rattle.std.specs.Prelude.{◌+◌, ◌*◌, ◌^◌, ◌<◌, length};
ghost use Rattle.std.specs.Char.{digit_value};
ghost use Rattle.std.specs.Option.{SomeIff};
ghost use Rattle.std.specs.Str.Parse.{AllDigits, digits_value};
ghost use Rattle.clsm_text.specs.Number.{IsNumber, IsValue, value_of};

use clsm_model::Value;

/// The most digits of a number, leading zeros counted.
const MOST_DIGITS: usize = 20;

/// The most words of a value.
const MOST_WORDS: usize = 8;

/// The number that one to twenty decimal digits write, and nothing else; `None` for any other
/// text, and where the number does not fit 64 bits.
pub fn parse_number(text: &str) -> Option<u64>
    ensures { SomeIff result (IsNumber text.now) (digits_value 10 text.now) }
{
    parse_digits(text.as_bytes())
}

/// The same of bytes, which need not be text.
pub fn parse_digits(bytes: &[u8]) -> Option<u64>
    ensures { SomeIff result (IsNumber bytes.now) (digits_value 10 bytes.now) }
{
    if bytes.is_empty() || bytes.len() > MOST_DIGITS {
        return None;
    }
    if bytes.len() == MOST_DIGITS {
        let number = parse_fitting(&bytes[..MOST_DIGITS - 1])?;
        return append_digit(number, bytes[MOST_DIGITS - 1]);
    }
    parse_fitting(bytes)
}

/// The number that decimal digits write, which are so few that it fits 64 bits; `None` for other
/// bytes.
#[inline]
fn parse_fitting(bytes: &[u8]) -> Option<u64>
    requires { length bytes.now < 20 }
    ensures { SomeIff result (AllDigits 10 bytes.now) (digits_value 10 bytes.now) }
{
    let mut number = 0;
    for byte in bytes {
        if !byte.is_ascii_digit() {
            return None;
        }
        number = number * 10 + (*byte - b'0') as u64;
    }
    Some(number)
}

/// The number whose digits are those of this one and then the byte; `None` where the byte is no
/// decimal digit, and where the number does not fit 64 bits.
fn append_digit(number: u64, byte: u8) -> Option<u64>
    ensures { SomeIff result
        ((digit_value byte < 10) × (number * 10 + digit_value byte < 2 ^ 64))
        (number * 10 + digit_value byte) }
{
    if !byte.is_ascii_digit() {
        return None;
    }
    number.checked_mul(10)?.checked_add((byte - b'0') as u64)
}

/// The value that one to eight numbers write, with a comma between each two of them; `None` for
/// any other text.
pub fn parse_value(text: &str) -> Option<Value>
    ensures { SomeIff result (IsValue text.now) (value_of text.now) }
{
    if let Some(word) = parse_number(text) {
        return Some(Value::from(word));
    }
    parse_words(text)
}

/// The same of a text that is looked at word by word.
fn parse_words(text: &str) -> Option<Value>
    ensures { SomeIff result (IsValue text.now) (value_of text.now) }
{
    let mut words = [0; MOST_WORDS];
    let mut count = 0;
    for part in text.split(',') {
        if count == MOST_WORDS {
            return None;
        }
        words[count] = parse_number(part)?;
        count += 1;
    }
    Value::new(&words[..count]).ok()
}
