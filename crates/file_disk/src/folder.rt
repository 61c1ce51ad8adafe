//! The folder that a file lies in, which has to reach the platter too before a new file is there to
//! stay.
use std::fs::{OpenFile, OpenOptions};
use std::rt::Files;

/// The path of the folder that holds the file of this path.
fn folder_of(path: &str) -> &str {
    match path.rsplit_once('/') {
        Some((folder, _)) if folder.is_empty() => "/",
        Some((folder, _)) => folder,
        None => ".",
    }
}

/// Makes the name of a new file durable in its folder, and tells whether it is.
pub fn sync_folder<R: Files>(rt: &R, path: &str) -> bool {
    let mut how = OpenOptions::new();
    how.read(true);
    match how.open(rt, folder_of(path)) {
        Ok(folder) => folder.sync_all().is_ok(),
        Err(_) => false,
    }
}
