ghost use Rattle.std.specs.Prelude.{◌≡◌, option_map};
ghost use Rattle.std.specs.List.{list_all};
ghost use Rattle.op_manifest.specs.Trees.{data_of, field_seen, named_parts};
ghost use Rattle.op_input.specs.Keys as spec;

use op_base::Text;
use op_manifest::{Tree, given, is_null};

/// The value of the key, where every other field of the object is null.
#[tactic(auto, unfolding(crate::specs::Keys::only_field))]
pub fn only_field<'a>(tree: &'a Tree, name: &str) -> Option<&'a Tree>
    ensures { option_map (λ t. data_of t.now) result ≡ spec.only_field name.now (data_of tree.now) }
{
    if stands_alone(tree, name) {
        given(tree, name)
    } else {
        None
    }
}

#[tactic(auto, using(op_manifest::proofs::TreeLemmas::no_names))]
fn stands_alone(tree: &Tree, name: &str) -> bool
    ensures { result ≡ list_all (spec.is_null_or name.now) (named_parts (data_of tree.now)) }
{
    match tree.as_fields() {
        Some(fields) => all_null_or(fields, name),
        None => true,
    }
}

fn all_null_or(fields: &[(Text, Tree)], name: &str) -> bool
    ensures { result ≡ list_all (λ field. spec.is_null_or name.now (field_seen field)) fields.now }
{
    fields.iter().all(|field| is_null_or(field, name))
}

fn is_null_or(field: &(Text, Tree), name: &str) -> bool
    ensures { result ≡ spec.is_null_or name.now (field_seen field.now) }
{
    is_null(&field.1) || field.0.as_str() == name
}
