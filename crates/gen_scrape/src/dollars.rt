// Texts as replacements of relabelling steps.
ghost use Rattle.std.specs.Prelude.{◌≡◌, ◌++◌, IfOk, OnOk, encode_utf8};
ghost use Rattle.std.specs.List.{flat_map};
ghost use Rattle.gen_scrape.specs.Dollars as spec;

use op_base::{NoMemory, Text};
use std::alloc::Global;

/// The text with each `$` written `$$`, so that a replacement by it gives the text itself.
pub(crate) fn doubled_dollars(alloc: Global, text: &str) -> Result<Text, NoMemory>
    ensures { IfOk result (λ written. written ≡ spec.doubled_dollars text.now) }
{
    let mut written = Text::new(alloc);
    push_doubled(&mut written, text)?;
    Ok(written)
}

fn push_doubled(written: &mut Text, text: &str) -> Result<(), NoMemory>
    ensures { OnOk result (written.new ≡ written.old ++ spec.doubled_dollars text.now) }
{
    for c in text.chars() {
        push_char(written, c)?;
    }
    Ok(())
}

#[tactic(auto, using(crate::proofs::DollarLemmas::kept_character))]
fn push_char(written: &mut Text, c: char) -> Result<(), NoMemory>
    ensures { OnOk result (written.new ≡ written.old ++ flat_map spec.doubled (encode_utf8 c)) }
{
    match c {
        '$' => written.push_str("$$"),
        _ => written.push(c),
    }
}
