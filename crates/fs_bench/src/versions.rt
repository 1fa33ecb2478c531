//! Times version chains: a million versions of so many documents, put in one by one, and looked up again.
use crate::{ROUNDS, a_name, document_of, moment, one_field, tell};
use fs_path::DocName;
use fs_time::Micros;
use fs_value::SharedFields;
use fs_versions::Versions;
use fs_write::Change;
use std::alloc::{AllocError, Global};
use std::io;
use std::time::Instant;

/// A prime, so that each document is come to as often as the others, in no order.
const STRIDE: u64 = 611_953;

/// Prints what a version costs where there are so many documents.
pub fn measure(rt: &HostRuntime, count: u32) -> io::Result<()> {
    let names = names(rt.alloc(), count)?;
    measure_names(rt, &names)
}

fn measure_names(rt: &HostRuntime, names: &[DocName]) -> io::Result<()> {
    let mut versions = Versions::new(rt.alloc(), moment(0));
    let done = measure_versions(rt, &mut versions, names);
    drop(versions);
    done
}

fn measure_versions(
    rt: &HostRuntime,
    versions: &mut Versions,
    names: &[DocName],
) -> io::Result<()> {
    measure_installs(rt, versions, names)?;
    measure_reads(rt, versions, names)?;
    measure_compaction(rt, versions)
}

fn measure_installs(
    rt: &HostRuntime,
    versions: &mut Versions,
    names: &[DocName],
) -> io::Result<()> {
    let fields = one_field(rt.alloc(), 1)?;
    time_installs(rt, versions, names, &fields)
}

fn time_installs(
    rt: &HostRuntime,
    versions: &mut Versions,
    names: &[DocName],
    fields: &SharedFields,
) -> io::Result<()> {
    let start = Instant::now(rt)?;
    let made = make(rt.alloc(), names, fields)?;
    tell(rt, "making a change", start, made)?;
    let start = Instant::now(rt)?;
    let installed = install(rt.alloc(), versions, names, fields)?;
    tell(rt, "making it and putting its version in", start, installed)
}

fn measure_reads(rt: &HostRuntime, versions: &Versions, names: &[DocName]) -> io::Result<()> {
    let start = Instant::now(rt)?;
    let found = look_up(versions, names);
    tell(rt, "a document at a time", start, found)?;
    let start = Instant::now(rt)?;
    let found = look_up_latest(versions, names);
    tell(rt, "the newest of a document", start, found)
}

fn measure_compaction(rt: &HostRuntime, versions: &mut Versions) -> io::Result<()> {
    let start = Instant::now(rt)?;
    let half = moment(ROUNDS / 2);
    if versions.floor() <= half {
        versions.compact(half);
    }
    tell(
        rt,
        "a compaction to half of the time, by version",
        start,
        ROUNDS / 2,
    )
}

fn names(alloc: Global, count: u32) -> Result<Vec<DocName>, AllocError> {
    let mut names = Vec::new(alloc);
    for i in 0..count {
        names.push(a_name(alloc, "m", u64::from(i))?)?;
    }
    Ok(names)
}

// The name that a round comes to.
fn name_of(names: &[DocName], round: u32) -> Option<&DocName> {
    let count = names.len() as u64;
    if count == 0 {
        return None;
    }
    let i = u64::from(round) * STRIDE % count;
    names.get(i as usize)
}

// The document is set. All documents share their fields.
fn change_of(
    alloc: Global,
    name: &DocName,
    fields: &SharedFields,
    time: Micros,
) -> Result<Change, AllocError> {
    let after = document_of(name.copy(alloc)?, fields.copy()?, time);
    Ok(Change {
        name: name.copy(alloc)?,
        before: None,
        after: Some(after),
    })
}

fn make(alloc: Global, names: &[DocName], fields: &SharedFields) -> Result<u32, AllocError> {
    let mut made = 0u32;
    for round in 0..ROUNDS {
        if let Some(name) = name_of(names, round) {
            drop(change_of(alloc, name, fields, moment(round))?);
            made = made.saturating_add(1);
        }
    }
    Ok(made)
}

fn install(
    alloc: Global,
    versions: &mut Versions,
    names: &[DocName],
    fields: &SharedFields,
) -> Result<u32, AllocError> {
    let mut installed = 0u32;
    for round in 0..ROUNDS {
        if let Some(name) = name_of(names, round) {
            install_one(alloc, versions, name, fields, moment(round + 1))?;
            installed = installed.saturating_add(1);
        }
    }
    Ok(installed)
}

fn install_one(
    alloc: Global,
    versions: &mut Versions,
    name: &DocName,
    fields: &SharedFields,
    time: Micros,
) -> Result<(), AllocError> {
    if time <= versions.floor() || time <= versions.last() {
        return Ok(());
    }
    let change = change_of(alloc, name, fields, time)?;
    let done = versions.install_one(alloc, &change, time);
    drop(change);
    done
}

fn look_up(versions: &Versions, names: &[DocName]) -> u32 {
    let mut found = 0u32;
    for round in 0..ROUNDS {
        let time = moment(round + 1);
        if time < versions.floor() {
            continue;
        }
        if let Some(name) = name_of(names, round) {
            found = found.saturating_add(versions.at(name, time).is_some() as u32);
        }
    }
    found
}

fn look_up_latest(versions: &Versions, names: &[DocName]) -> u32 {
    let mut found = 0u32;
    for round in 0..ROUNDS {
        if let Some(name) = name_of(names, round) {
            found = found.saturating_add(versions.latest(name).is_some() as u32);
        }
    }
    found
}
