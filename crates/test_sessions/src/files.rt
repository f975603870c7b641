//! Files in the system's folder for temporary files.

use std::rt::{Env, Files};
use std::test::Fail;
use std::{env, fs};

/// A file's name. No two tests have a file in common.
pub fn name_of<R: Env + AllocGlobal>(rt: &R, name: &str) -> Result<String, Fail> {
    let folder = env::temp_dir(rt)?;
    Ok(format!(in rt.alloc(); "{}/microsys-{name}", folder.as_path().as_str())?)
}

/// Writes a file of these bytes.
pub fn put_file<R: Files + Env + AllocGlobal>(
    rt: &R,
    name: &str,
    bytes: &[u8],
) -> Result<(), Fail> {
    Ok(fs::write(rt, name_of(rt, name)?.as_str(), bytes)?)
}

/// Removes files, and returns the bytes of the last one.
pub fn take_files<R: Files + Env + AllocGlobal>(rt: &R, names: &str) -> Result<Vec<u8>, Fail> {
    let mut bytes = Vec::new(rt.alloc());
    for name in names.split_whitespace() {
        let file = name_of(rt, name)?;
        bytes = fs::read(rt, file.as_str())?;
        fs::remove_file(rt, file.as_str())?;
    }
    Ok(bytes)
}
