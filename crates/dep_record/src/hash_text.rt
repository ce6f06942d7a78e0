//! The texts of sums.

ghost use Rattle.std.specs.Prelude.{◌≡◌};
ghost use Rattle.hex.specs.Hex.{encode_lower};
ghost use Rattle.dep_record.specs.Fields as field;

// The 64 digits of a sum.
fn digits_of(hash: &[u8; 32]) -> [u8; 64]
    ensures { result ≡ encode_lower hash.now }
{
    let mut digits = [0; 64];
    let _fits = hex::encode_to_slice(hash.as_slice(), &mut digits);
    digits
}

/// The sum that stands there in lower-case digits.
#[tactic(auto, unfolding(crate::specs::Fields::hash_of))]
pub fn hash_of(text: &[u8]) -> Option<[u8; 32]>
    ensures { result ≡ field.hash_of text.now }
{
    let mut hash = [0; 32];
    if hex::decode_to_slice(text, &mut hash).is_err() {
        return None;
    }
    if digits_of(&hash).as_slice() == text {
        Some(hash)
    } else {
        None
    }
}
