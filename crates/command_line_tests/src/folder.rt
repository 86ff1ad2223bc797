// A folder of its own for each test, which is empty at first.
use std::path::PathBuf;
use std::{env, fs, io};

// Makes the folder, or makes it anew.
pub fn new_folder(rt: &HostRuntime, name: &str) -> io::Result<PathBuf> {
    let mut folder = env::temp_dir(rt)?;
    folder.push(format!(in rt.alloc();
        "kachumpe-{}-{name}",
        std::process::id(rt.process())
    )?.as_str())?;
    let _ = fs::remove_dir_all(rt, folder.as_str());
    fs::create_dir(rt, folder.as_str())?;
    Ok(folder)
}

// The path of a file in a folder.
pub fn path_in(rt: &HostRuntime, folder: &PathBuf, name: &str) -> io::Result<String> {
    Ok(folder.join(rt.alloc(), name)?.into_string())
}
