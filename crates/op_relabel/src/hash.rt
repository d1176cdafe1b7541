ghost use Rattle.std.specs.Prelude.{◌≡◌, ◌%◌, decimal, IfOk};
ghost use Rattle.op_relabel.specs.Actions as spec;
ghost use Rattle.op_relabel.specs.declared.step.Action.TheVariants.{HashMod};

use crate::actions::with_label;
use crate::prepared::PreparedStep;
use crate::values::step_text;
use md5::{Digest, Md5};
use op_base::{Labels, NoMemory, Text};
use std::alloc::Global;

/// The labels with the number of the step's text, modulo its modulus, at the target.
pub(crate) fn hashed(alloc: Global, step: &PreparedStep, labels: Labels) -> Result<Labels, NoMemory>
    requires { step.now.action ≡ HashMod }
    ensures { IfOk result (λ left. left ≡ spec.hashed step.now labels) }
{
    let text = step_text(alloc, step.step(), &labels)?;
    let step = step.step();
    let number = decimal_text(alloc, hash_of(text.as_bytes()) % step.modulus)?;
    with_label(labels, step.target.as_str(), number.as_str())
}

// The last eight bytes of the MD5 as a number.
fn hash_of(text: &[u8]) -> u64
    ensures { result ≡ spec.hash_of text.now }
{
    let mut hasher = Md5::new();
    hasher.update(text);
    last_half(hasher.finalize())
}

fn last_half(digest: [u8; 16]) -> u64
    ensures { result ≡ spec.last_half digest }
{
    u64::from_be_bytes([
        digest[8], digest[9], digest[10], digest[11], digest[12], digest[13], digest[14],
        digest[15],
    ])
}

fn decimal_text(alloc: Global, number: u64) -> Result<Text, NoMemory>
    ensures { IfOk result (λ text. text ≡ decimal number) }
{
    Ok(Text::from_string(format!(in alloc; "{number}")?))
}
