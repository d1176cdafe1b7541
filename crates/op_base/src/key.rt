ghost use Rattle.std.specs.Prelude.{◌≡◌, IfOk};
ghost use Rattle.op_base.specs.Keys.{key_text};

use crate::kind::Kind;
use crate::memory::NoMemory;
use crate::text::Text;
use std::alloc::Global;

/// What names an object: ordered by kind, then namespace, then name. The namespace of a Namespace
/// object is the empty text.
#[derive(Clone, Debug, PartialEq, Eq, PartialOrd, Ord, Drop)]
pub struct Key {
    pub kind: Kind,
    pub namespace: Text,
    pub name: Text,
}

impl Key {
    /// `KIND/NAMESPACE/NAME`.
    pub fn text(&self, alloc: Global) -> Result<Text, NoMemory>
        ensures { IfOk result (λ text. text ≡ key_text self.now) }
    {
        let mut text = Text::from_str(alloc, self.kind.name())?;
        text.push_str("/")?;
        text.push_str(self.namespace.as_str())?;
        text.push_str("/")?;
        text.push_str(self.name.as_str())?;
        Ok(text)
    }
}
