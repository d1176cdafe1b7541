use crate::case::run_case;
use crate::files::{Disk, Files, names_in, path_in};
use op_base::Text;
use op_edges::{StdSink, put_all};
use operator_tables::{Call, Tally, Trouble, judge_table, store_of};
use srv_store::Store;
use std::alloc::Global;
use std::io::Stdout;

/// Standard output.
pub type Out = StdSink<Stdout>;

/// Runs all cases and tables of the folder `root`, says of each group and table how many are alike, and
/// answers whether all are.
pub fn run_all(alloc: Global, disk: &mut Disk, out: &mut Out, root: &str) -> Result<bool, Trouble> {
    let is_alike = run_groups(alloc, disk, out, path_in(alloc, root, "cases")?.as_str())?;
    Ok(run_calls(alloc, disk, out, path_in(alloc, root, "tables")?.as_str())? && is_alike)
}

fn run_groups(alloc: Global, disk: &mut Disk, out: &mut Out, dir: &str) -> Result<bool, Trouble> {
    let groups = names_in(alloc, disk, dir)?;
    let mut is_alike = true;
    for group in groups.as_slice() {
        let mut tally = Tally::new(alloc, group.clone()?);
        run_group(alloc, disk, dir, group.as_str(), &mut tally)?;
        is_alike = say(out, tally)? && is_alike;
    }
    Ok(is_alike)
}

fn run_group(
    alloc: Global,
    disk: &mut Disk,
    dir: &str,
    group: &str,
    tally: &mut Tally,
) -> Result<(), Trouble> {
    let dir = path_in(alloc, dir, group)?;
    let names = names_in(alloc, disk, dir.as_str())?;
    for name in names.as_slice() {
        let outcome = run_case(alloc, disk, dir.as_str(), name.as_str(), tally);
        tally.count(name.as_str(), outcome)?;
    }
    Ok(())
}

// Says how many are alike, and answers whether all are.
fn say(out: &mut Out, mut tally: Tally) -> Result<bool, Trouble> {
    tally.close()?;
    put_all(out, tally.text().as_bytes())?;
    Ok(tally.is_alike())
}

fn run_calls(alloc: Global, disk: &mut Disk, out: &mut Out, dir: &str) -> Result<bool, Trouble> {
    let names = names_in(alloc, disk, dir)?;
    let mut is_alike = true;
    for name in names.as_slice() {
        is_alike = run_call(alloc, disk, out, dir, name.as_str())? && is_alike;
    }
    Ok(is_alike)
}

fn run_call(
    alloc: Global,
    disk: &mut Disk,
    out: &mut Out,
    dir: &str,
    name: &str,
) -> Result<bool, Trouble> {
    let Some(call) = Call::of_name(name) else {
        return Err(Trouble::Unreadable("a folder of tables has the name of no call"));
    };
    let tables = Files::read(alloc, disk, path_in(alloc, dir, name)?.as_str())?;
    let store = store_of(alloc, tables.text("store")?)?;
    run_tables(alloc, out, &tables, call, &store, name)
}

fn run_tables(
    alloc: Global,
    out: &mut Out,
    tables: &Files,
    call: Call,
    store: &Store,
    folder_name: &str,
) -> Result<bool, Trouble> {
    let mut is_alike = true;
    for table in tables.names.as_slice() {
        if table.as_str() != "store" {
            let title = path_in(alloc, folder_name, table.as_str())?;
            let mut tally = Tally::new(alloc, Text::from_string(title));
            judge_table(alloc, call, store, tables.text(table.as_str())?, &mut tally)?;
            is_alike = say(out, tally)? && is_alike;
        }
    }
    Ok(is_alike)
}
