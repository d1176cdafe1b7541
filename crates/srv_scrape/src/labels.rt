// What is asked of label sets, and put into them.
ghost use Rattle.std.specs.Prelude.{◌≡◌, OnOk};
ghost use Rattle.srv_scrape.specs.Joined as join;
ghost use Rattle.srv_scrape.specs.Targets as spec;

use op_base::{Labels, NoMemory};

pub(crate) fn has_name(labels: &Labels, name: &str) -> bool
    ensures { result ≡ join.has_name labels.now name.now }
{
    labels.get(name).is_some()
}

// Puts the label where none of its name is there.
pub(crate) fn put_default(labels: &mut Labels, name: &str, value: &str) -> Result<(), NoMemory>
    ensures { OnOk result (labels.new ≡ spec.with_default name.now value.now labels.old) }
{
    if has_name(labels, name) {
        return Ok(());
    }
    labels.set(name, value)
}
