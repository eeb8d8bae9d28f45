//! Files of the tests' own.
use std::test::Fail;
use std::{env, process};

/// The name of a file in the folder for files of the moment: it has this word, and no other process uses it.
pub(crate) fn own_path(rt: &HostRuntime, word: &str) -> Result<String, Fail> {
    let folder = env::temp_dir(rt)?;
    let id = process::id(rt.process());
    Ok(format!(in rt.alloc(); "{}/filedisk-{word}-{id}", folder.as_str())?)
}
