// Reads the numbers of a request: an amount, then its weights, separated by commas.
ghost use Rattle.std.specs.Prelude.{◌≡◌, IfOk, vec_items};
ghost use Rattle.std.specs.Option.{option_map};
ghost use Rattle.allocate.specs.Requests.{natural_of, number_of, numbers_of};

use std::alloc::{AllocError, Global};

const COMMA: u8 = b',';

const MINUS: &[u8] = b"-";

const ZERO: u8 = b'0';

const RADIX: u64 = 10;

const MAX_DIGITS: usize = 19;

// The number that one to nineteen digits write. A loop, so that one walk tests each digit and reads it; `parse` takes a text, and takes a plus and more digits too.
fn natural(text: &[u8]) -> Option<u64>
    ensures { result ≡ natural_of text.now }
{
    if text.is_empty() || text.len() > MAX_DIGITS {
        return None;
    }
    let mut value: u64 = 0;
    for b in text {
        if !b.is_ascii_digit() {
            return None;
        }
        value = value * RADIX + u64::from(*b - ZERO);
    }
    Some(value)
}

// The number that a field writes, if it is one and fits.
fn number(field: &[u8]) -> Option<i64>
    ensures { result ≡ number_of field.now }
{
    let whole = match field.strip_prefix(MINUS) {
        Some(digits) => -i128::from(natural(digits)?),
        None => i128::from(natural(field)?),
    };
    i64::try_from(whole).ok()
}

// The numbers of a line, if every field is one.
pub(crate) fn numbers(heap: Global, line: &[u8]) -> Result<Option<Vec<i64>>, AllocError>
    ensures { IfOk result (λ o. option_map vec_items o ≡ numbers_of line.now) }
{
    let mut values = Vec::new(heap);
    for field in line.split(|b| *b == COMMA) {
        let Some(value) = number(field) else {
            return Ok(None);
        };
        values.push(value)?;
    }
    Ok(Some(values))
}
