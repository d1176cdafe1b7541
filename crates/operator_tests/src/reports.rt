//! Lines that no command writes yet: of alerts, and of changes that concern other objects.

use crate::things::{is_so, label, list_of, text};
use op_base::{List, Moment, NoMemory};
use op_report::{AlertView, Also, View, answers_well, tenant_line};
use std::alloc::Global;

fn skipped(alloc: Global) -> Result<Also, NoMemory> {
    Ok(Also {
        key: text(alloc, "Probe/a/p")?,
        answer: text(alloc, "Skipped")?,
        rule: Some(text(alloc, "A4")?),
        path: Some(text(alloc, "spec")?),
    })
}

fn refused(alloc: Global) -> Result<View, NoMemory> {
    Ok(View::Own {
        deleted: true,
        key: text(alloc, "Secret/a/s")?,
        answer: text(alloc, "Refused")?,
        rule: Some(text(alloc, "S6")?),
        path: Some(text(alloc, "data")?),
        also: list_of(alloc, skipped(alloc)?)?,
    })
}

/// Whether the line of the view for the namespace `a` is this one.
fn says(alloc: Global, view: &View, wanted: &str) -> Result<bool, NoMemory> {
    Ok(tenant_line(alloc, "a", view)?.as_slice() == wanted.as_bytes())
}

/// Whether a deletion may concern another object.
fn deletion_is_told(alloc: Global) -> Result<bool, NoMemory> {
    let view = refused(alloc)?;
    let is_told = says(
        alloc,
        &view,
        "a\t{\"also\":[[\"Probe/a/p\",\"Skipped\",\"A4\",\"spec\"]],\"answer\":\"Refused\",\"delete\":\"Secret/a/s\",\"path\":\"data\",\"rule\":\"S6\"}\n",
    )?;
    Ok(is_told && !answers_well(&view))
}

fn firing(alloc: Global) -> Result<AlertView, NoMemory> {
    let receiver = (
        text(alloc, "a/am/team")?,
        label(alloc, "alertname", "Down")?,
    );
    Ok(AlertView {
        labels: label(alloc, "alertname", "Down")?,
        firing: true,
        first: Moment(0),
        muted: false,
        receivers: list_of(alloc, receiver)?,
    })
}

fn tick(alloc: Global) -> Result<View, NoMemory> {
    Ok(View::Tick {
        alerts: list_of(alloc, firing(alloc)?)?,
        failed: List::new(alloc),
        stored: List::new(alloc),
        at: Moment(5),
    })
}

/// Whether a tick has its alerts.
fn tick_is_told(alloc: Global) -> Result<bool, NoMemory> {
    says(
        alloc,
        &tick(alloc)?,
        "a\t{\"alerts\":[[{\"alertname\":\"Down\"},\"firing\",0,false,[[\"a/am/team\",{\"alertname\":\"Down\"}]]]],\"failed\":[],\"stored\":[],\"tick\":5}\n",
    )
}

#[test]
fn a_deletion_and_a_tick_are_told(rt: HostRuntime) {
    assert!(rt; is_so(deletion_is_told(rt.alloc())));
    assert!(rt; is_so(tick_is_told(rt.alloc())));
}
