// What is read when a configuration is loaded.
ghost use Rattle.std.specs.Prelude.{◌≡◌};

use cfg_types::{Group, Rule, RuleFile};
use op_base::NoMemory;
use srv_store::Store;

/// Reads the patterns of the expressions of all rules.
pub(crate) fn read_patterns(files: &[RuleFile], store: &mut Store) -> Result<(), NoMemory>
    ensures { store.new ≡ store.old }
{
    for file in files {
        read_in_groups(file.groups.as_slice(), store)?;
    }
    Ok(())
}

fn read_in_groups(groups: &[Group], store: &mut Store) -> Result<(), NoMemory>
    ensures { store.new ≡ store.old }
{
    for group in groups {
        read_in_rules(group.rules.as_slice(), store)?;
    }
    Ok(())
}

fn read_in_rules(rules: &[Rule], store: &mut Store) -> Result<(), NoMemory>
    ensures { store.new ≡ store.old }
{
    for rule in rules {
        ql_eval::read_patterns(&rule.expr, store)?;
    }
    Ok(())
}
