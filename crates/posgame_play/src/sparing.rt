//! Looks whether the record would replace a file that is read.
use crate::usage::Asked;
use pg_host::are_same;
use std::rt::Files;

/// Returns whether both names lead to the same file of the system.
fn lead_to_same(rt: &HostRuntime, one: &str, other: &str) -> bool {
    match (rt.metadata(one), rt.metadata(other)) {
        (Ok(one), Ok(other)) => are_same(&one, &other),
        _ => false,
    }
}

/// Returns which of the files that are read the record would replace, if it is one of them.
pub(crate) fn replaced<'a>(rt: &HostRuntime, asked: &Asked<'a>) -> Option<&'a str> {
    let record = asked.record?;
    let read = [
        asked.game,
        asked.certificate.unwrap_or(asked.game),
        asked.layout.unwrap_or(asked.game),
    ];
    for name in read {
        if lead_to_same(rt, record, name) {
            return Some(name);
        }
    }
    None
}
