ghost use Rattle.std.specs.Prelude.{◌≡◌, [], None};

use crate::{Failed, Files};
use esql_types::{Name, Noted};
use std::io::{ErrorKind, Read};
use std::{fs, rt};

#[cfg(test)]
mod tests;

/// The files of the working folder: a name is a path from there. It does not tell what they hold.
///
/// A name that is not there is no fault. Each other error of the system is one, on which the file is closed.
#[derive(Drop)]
pub struct DirFiles<'a, R: rt::Files> {
    rt: &'a R,
    current: Option<Current<R::File>>,
    faults: u64,
    failed: Noted,
}

/// The file that is open, and its name.
#[derive(Drop)]
struct Current<F: Read + Drop> {
    file: F,
    name: Noted,
}

impl<'a, R: rt::Files> DirFiles<'a, R> {
    /// The files of a runtime, none of them open.
    pub fn new(rt: &'a R) -> DirFiles<'a, R>
        ensures current { result.current ≡ None }
        ensures faults { result.faults ≡ 0 }
        ensures failed { result.failed.text ≡ [] }
    {
        DirFiles {
            rt,
            current: None,
            faults: 0,
            failed: Noted::new(),
        }
    }
}

impl<'a, R: rt::Files> Files for DirFiles<'a, R> {
    ghost use Rattle.std.specs.Prelude.{None, option_map};

    ghost holds = { λ _. None };

    ghost opened = { λ files. option_map (λ current. current.name.text) files.current };

    ghost left = { λ _. None };

    ghost faults = { λ files. files.faults };

    ghost failed = { λ files. files.failed.text };

    fn open(&mut self, name: &str) -> Result<bool, Failed> {
        self.current = None;
        let noted = self.failed.then(&Name { text: name });
        match fs::open(self.rt, name) {
            Ok(file) => {
                self.current = Some(Current { file, name: noted });
                Ok(true)
            }
            Err(error) if error.kind() == ErrorKind::NotFound => Ok(false),
            Err(_) => {
                self.faults = self.faults.saturating_add(1);
                self.failed = noted;
                Err(Failed)
            }
        }
    }

    fn read(&mut self, into: &mut [u8]) -> Result<usize, Failed> {
        let Some(mut current) = self.current.take() else {
            return Ok(0);
        };
        if let Ok(count) = current.file.read(into) {
            self.current = Some(current);
            return Ok(count);
        }
        self.faults = self.faults.saturating_add(1);
        self.failed = current.name;
        Err(Failed)
    }
}
