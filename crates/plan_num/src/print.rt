// Numbers as text.
ghost use Rattle.std.specs.Prelude.{◌≡◌, ◌^◌, ◌<◌, ◌≤◌, ◌++◌, pos, neg_ℤ, ◌≤ℤ◌, IfOk, OnOk};
ghost use Rattle.std.specs.Prelude.{Some, List, ℕ, length};
ghost use Rattle.plan_num.specs.Number.{fixed_of, number_of};
ghost use Rattle.plan_num.specs.Print.{fixed_text, fraction_text};

use crate::memory::NoMemory;
use crate::text::Text;
use itoa::Buffer;
use std::alloc::Global;

// The values of the six digits after a point, in millionths.
pub(crate) const PLACES: [u32; 6] = [100_000, 10_000, 1_000, 100, 10, 1];

/// The text of a number of millionths: a minus for negatives, the whole part, and, where the
/// fraction is not 0, a point and its digits without trailing zeros.
pub fn print_fixed(alloc: Global, millionths: i128) -> Result<Text, NoMemory>
    requires low { neg_ℤ (pos (10 ^ 37)) ≤ℤ millionths }
    requires high { millionths ≤ℤ pos (10 ^ 37) }
    ensures text { IfOk result (λ text. text ≡ fixed_text millionths) }

    // What is printed spells the number, and no text that spells it is shorter.
    ensures spells { IfOk result (λ text. number_of text ≡ Some millionths) }
    ensures shortest { IfOk result (λ text. (other : List ℕ) → number_of other ≡ Some millionths →
        length text ≤ length other) }

    // It is read back as a field, where a field may spell the number.
    ensures read_back { neg_ℤ (pos (10 ^ 18)) ≤ℤ millionths → millionths ≤ℤ pos (10 ^ 18) →
        IfOk result (λ text. fixed_of text ≡ Some millionths) }
{
    let bytes = fixed_bytes(alloc, millionths)?;
    Ok(Text::from_vec(bytes))
}

// The bytes of that text.
fn fixed_bytes(alloc: Global, millionths: i128) -> Result<Vec<u8>, NoMemory>
    requires low { neg_ℤ (pos (10 ^ 37)) ≤ℤ millionths }
    requires high { millionths ≤ℤ pos (10 ^ 37) }
    ensures { IfOk result (λ bytes. bytes.items ≡ fixed_text millionths) }
{
    let mut bytes = Vec::new(alloc);
    if millionths < 0 {
        bytes.push(b'-')?;
    }
    let magnitude = millionths.unsigned_abs();
    let mut buffer = Buffer::new();
    bytes.extend_from_slice(buffer.format(magnitude / 1_000_000).as_bytes())?;
    push_fraction(&mut bytes, (magnitude % 1_000_000) as u32)?;
    Ok(bytes)
}

// Appends a point and the digits of a fraction, up to the last one that is not 0.
fn push_fraction(bytes: &mut Vec<u8>, millionths: u32) -> Result<(), NoMemory>
    requires { millionths < 1000000 }
    ensures { OnOk result (bytes.new.items ≡ bytes.old.items ++ fraction_text millionths) }
{
    if millionths == 0 {
        return Ok(());
    }
    bytes.push(b'.')?;
    let mut rest = millionths;
    for place in PLACES {
        if rest == 0 {
            break;
        }
        bytes.push(b'0' + (rest / place) as u8)?;
        rest %= place;
    }
    Ok(())
}
