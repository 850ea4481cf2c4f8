//! How far a run is.
use mz_base::name::Name;
use std::alloc::{AllocError, Global};
use std::sync::atomic::{AtomicU64, Ordering};
use std::sync::{Mutex, Wait};

/// How many names of articles that are being checked are shown.
const SHOWN: usize = 3;

/// How many texts of articles were found, how many articles are done, and which are being checked.
#[derive(Drop)]
pub struct Progress {
    found: AtomicU64,
    done: AtomicU64,
    checking: Mutex<Vec<Name>>,
}

/// Appends a space and the name.
fn push_name(alloc: Global, name: &Name, line: &mut String) -> Result<(), AllocError> {
    let text = name.text(alloc)?;
    if let Ok(word) = str::from_utf8(text.as_slice()) {
        line.push(' ')?;
        line.push_str(word)?;
    }
    Ok(())
}

/// Appends the first of the names, and ` ..` where there are more; nothing where there is none.
fn push_names(alloc: Global, names: &[Name], line: &mut String) -> Result<(), AllocError> {
    if names.is_empty() {
        return Ok(());
    }
    line.push_str(", checking")?;
    for name in names.iter().take(SHOWN) {
        push_name(alloc, name, line)?;
    }
    if names.len() > SHOWN {
        line.push_str(" ..")?;
    }
    Ok(())
}

impl Progress {
    /// A run that has found so many articles.
    pub fn new(alloc: Global, found: u64) -> Progress {
        Progress {
            found: AtomicU64::new(found),
            done: AtomicU64::new(0),
            checking: Mutex::new(Vec::new(alloc)),
        }
    }

    /// One more article is found.
    pub fn find(&self) {
        self.found.fetch_add(1, Ordering::SeqCst);
    }

    /// The check of the article begins. Where memory is wanting its name isn't shown.
    pub fn begin<R: Wait>(&self, rt: &R, name: Name) {
        let _ = self.checking.lock(rt).push(name);
    }

    /// The check of the article has ended.
    pub fn end<R: Wait>(&self, rt: &R, name: Name) {
        self.checking.lock(rt).retain(|other| *other != name);
        self.done.fetch_add(1, Ordering::SeqCst);
    }

    /// What is shown: how many articles are done of those that were found, and the first names of those that are being
    /// checked, in the order in which their checks began. It has less than 80 characters.
    ///
    /// # Errors
    /// `AllocError` where memory is wanting.
    pub fn line<R: Wait>(&self, rt: &R, alloc: Global) -> Result<String, AllocError> {
        let found = self.found.load(Ordering::SeqCst);
        let done = self.done.load(Ordering::SeqCst);
        let mut line = format!(in alloc; "mizv: {done} of {found} done")?;
        let checking = self.checking.lock(rt);
        push_names(alloc, checking.as_slice(), &mut line)?;
        Ok(line)
    }
}

#[cfg(test)]
mod tests {
    use super::*;

    #[test]
    fn a_line_tells_what_is_done_and_being_checked(rt: HostRuntime) {
        let alloc: Global = rt.alloc();
        let progress = Progress::new(alloc, 4);
        progress.find();
        let line = progress.line(&rt, alloc).expect(&rt, "memory");
        assert!(rt; line.as_str() == "mizv: 0 of 5 done");
        for word in ["DA", "DB", "DC", "DD"] {
            progress.begin(&rt, Name::read(word.as_bytes()).expect(&rt, "a name"));
        }
        let line = progress.line(&rt, alloc).expect(&rt, "memory");
        assert!(rt; line.as_str() == "mizv: 0 of 5 done, checking DA DB DC ..");
        progress.end(&rt, Name::read(b"DB").expect(&rt, "a name"));
        let line = progress.line(&rt, alloc).expect(&rt, "memory");
        assert!(rt; line.as_str() == "mizv: 1 of 5 done, checking DA DC DD");
    }
}
