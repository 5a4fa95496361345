// The code of a member or a resource: 1 to 6 capital letters or digits.
ghost use Rattle.std.specs.Prelude.{◌≡◌, ◌≤◌, ◌==◌, not, length, IfSome, if◌then◌else◌, Some, None};
ghost use Rattle.std.specs.List.{list_all, take_while};
ghost use Rattle.std.specs.Str.{bytes_eq};
ghost use Rattle.rolls.specs.Codes.{is_sign, good, code_of, text_of};

use crate::find::Keyed;

pub const MAX_CODE: usize = 6;
// What stands after the last sign of a short code.
const PAD: u8 = 0;

// In fixed memory: a short code is filled up.
#[derive(Clone, Copy, PartialEq, Eq, Debug)]
pub struct Code {
    signs: [u8; MAX_CODE],
}

// Spells nothing, and fills what holds no code yet.
pub const NO_CODE: Code = Code {
    signs: [PAD; MAX_CODE],
};

impl Keyed for Code {
    type Key = Code;

    ghost matches = { λ x c. bytes_eq x.signs c.signs };

    fn has_key(&self, key: &Code) -> bool {
        *self == *key
    }
}

// Whether a byte may stand in a code.
fn is_code_sign(b: u8) -> bool
    ensures { result ≡ is_sign b }
{
    matches!(b, b'A'..=b'Z' | b'0'..=b'9')
}

// Whether every byte of a text may stand in a code.
fn are_code_signs(text: &[u8]) -> bool
    ensures { result ≡ list_all is_sign text.now }
{
    text.iter().all(|b| is_code_sign(*b))
}

// How many signs stand before the first zero.
fn sign_count(signs: &[u8; MAX_CODE]) -> usize
    ensures value { result ≡ length (take_while (λ b. not (b == 0)) signs.now) }
    ensures within { result ≤ 6 }
{
    signs.iter().take_while(|b| **b != PAD).count()
}

impl Code {
    // The code that a text spells, if it is one.
    pub fn new(text: &[u8]) -> Option<Code>
        ensures value { result ≡ (if good text.now then Some (code_of text.now) else None) }
        ensures spelled { IfSome result (λ c. text_of c ≡ text.now) }
    {
        if text.is_empty() || text.len() > MAX_CODE || !are_code_signs(text) {
            return None;
        }
        let mut signs = [PAD; MAX_CODE];
        signs[..text.len()].copy_from_slice(text);
        Some(Code { signs })
    }

    // The text that the code spells.
    pub fn text(&self) -> &[u8]
        ensures { result.now ≡ text_of self.now }
    {
        &self.signs[..sign_count(&self.signs)]
    }
}
