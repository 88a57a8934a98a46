//! Looks at names of files before they are read.
use std::fs::File;
use std::rt::Files;

/// Returns whether there is a file of this name that can't be opened. A plan that can't be opened
/// counts as missing where a game is split, and would be replaced.
pub(crate) fn is_hidden(rt: &HostRuntime, name: &str) -> bool {
    rt.symlink_metadata(name).is_ok() && !is_open(rt, name)
}

/// Returns whether the file of this name can be opened.
pub(crate) fn is_open(rt: &HostRuntime, name: &str) -> bool {
    File::open(rt, name).is_ok()
}
