// The task of the program: an account of each file that its arguments name.
use super::report::print_account;
use std::{env, fs};

fn tell(rt: &HostRuntime, file: &str) -> anyhow::Result<()> {
    match fs::read(rt, file) {
        Ok(text) => print_account(rt, file, &text)?,
        Err(e) => println!(rt; "{file}: cannot be read: {e}")?,
    }
    Ok(())
}

// An account of each file, or of the sample where no file is given.
pub fn run(rt: &HostRuntime, sample: &str) -> anyhow::Result<()> {
    let mut files = env::args(rt)?.skip(1).peekable();
    if files.peek().is_none() {
        return tell(rt, sample);
    }
    for file in files {
        tell(rt, file.as_str())?;
    }
    Ok(())
}
