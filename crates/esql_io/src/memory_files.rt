ghost use Rattle.std.specs.Prelude.{◌≡◌, ◌≤◌, ◌<◌, ◌+◌, ℕ, [], ◌++◌, Some, None, true, false, drop, take, length, option_map, slice_get, is_some, unwrap_or, if◌then◌else◌, MatchOption, IsSome, OnOk, OnErr, IfOk, IfSome};
ghost use Rattle.std.specs.Option.{option_copied};
ghost use Rattle.std.specs.List.{list_any};
ghost use Rattle.esql_types.specs.Counts.{next_count};
ghost use Rattle.esql_io.specs.Calls.{Called};
ghost use Rattle.esql_io.specs.Files.{whole_of, nothing_left, IsFound, ReadsNext};
ghost use Rattle.esql_io.specs.MemoryFiles.{held_in, is_failing, read_count, opened_name, left_of, holds_of};

use crate::{Failed, Files};
use esql_types::{Name, Noted, Seq, Text};
use std::marker::Model;

/// A file of `MemoryFiles`.
#[derive(Debug, Drop)]
pub struct HeldFile {
    pub name: Text,
    pub bytes: Seq<u8>,
}

/// Files in memory, which give at most a piece in one read and fail at chosen calls. Of two of one name the first counts.
/// No call takes memory.
#[derive(Drop)]
pub struct MemoryFiles {
    files: Seq<HeldFile>,
    piece: usize,
    failing: Seq<u64>,
    calls: u64,
    faults: u64,
    open: Option<OpenFile>,
    failed: Noted,
}

/// The place of the open file in the list, and how much of it was read.
#[derive(Clone, Copy, Debug)]
struct OpenFile {
    place: usize,
    cursor: usize,
}

impl Model for MemoryFiles {
    ghost use Rattle.std.specs.Prelude.{◌<◌};
    ghost use Rattle.esql_io.specs.MemoryFiles.{MemoryFilesState, opened_name, left_of};

    ghost Value = { MemoryFilesState };

    ghost view = { λ m. record {
      files = m.files;
      piece = m.piece;
      failing = m.failing;
      calls = m.calls;
      faults = m.faults;
      opened = opened_name m.files m.«open»;
      left = left_of m.files m.«open»;
      failed = m.failed.text;
    } };

    ghost invariant = { λ m. 0 < m.piece };
}

impl MemoryFiles {
    /// Files of which one read gives at most `piece` bytes. The calls of `open` and `read` are numbered together from 0,
    /// and those whose number is in `failing` fail.
    pub fn new(files: Seq<HeldFile>, piece: usize, failing: Seq<u64>) -> MemoryFiles
        requires { 0 < piece }
        ensures { result ≡ record {
          files = files;
          piece = piece;
          failing = failing;
          calls = 0;
          faults = 0;
          opened = None;
          left = [];
          failed = [];
        } }
    {
        MemoryFiles {
            files,
            piece,
            failing,
            calls: 0,
            faults: 0,
            open: None,
            failed: Noted::new(),
        }
    }

    fn fails(&self) -> bool
        ensures { result ≡ is_failing self.now }
    {
        self.failing.as_slice().contains(&self.calls)
    }
}

/// The place of the first file of a name.
fn find(files: &[HeldFile], name: &str) -> Option<usize>
    ensures { MatchOption result (held_in files.now name.now ≡ None) (λ place.
        (option_map (λ file. file.name) (slice_get files.now place) ≡ Some name.now)
        × (option_map (λ file. file.bytes) (slice_get files.now place) ≡ held_in files.now name.now)) }
{
    for (place, file) in files.iter().enumerate() {
        if file.name.as_str() == name {
            return Some(place);
        }
    }
    None
}

fn name_of(files: &[HeldFile], open: Option<OpenFile>) -> Option<&str>
    ensures { option_copied result ≡ opened_name files.now «open» }
{
    let file = files.get(open?.place)?;
    Some(file.name.as_str())
}

fn rest_of(files: &[HeldFile], open: Option<OpenFile>) -> &[u8]
    ensures { result.now ≡ left_of files.now «open» }
{
    match open {
        None => &[],
        Some(open_file) => match files.get(open_file.place) {
            None => &[],
            Some(file) => rest_from(file.bytes.as_slice(), open_file.cursor),
        },
    }
}

fn rest_from(bytes: &[u8], cursor: usize) -> &[u8]
    ensures { result.now ≡ drop cursor bytes.now }
{
    if cursor <= bytes.len() {
        let (_, rest) = bytes.split_at(cursor);
        rest
    } else {
        &[]
    }
}

/// The open file with its cursor that many bytes further, at most at the end.
fn advanced(files: &[HeldFile], open_file: OpenFile, count: usize) -> OpenFile
    ensures left { left_of files.now (Some result) ≡ drop count (left_of files.now (Some open_file)) }
    ensures place { result.place ≡ open_file.place }
{
    match files.get(open_file.place) {
        Some(file) => OpenFile {
            place: open_file.place,
            cursor: cursor_after(file.bytes.as_slice(), open_file.cursor, count),
        },
        None => open_file,
    }
}

fn cursor_after(bytes: &[u8], cursor: usize, count: usize) -> usize
    ensures { drop result bytes.now ≡ drop count (drop cursor bytes.now) }
{
    cursor.saturating_add(count).min(bytes.len())
}

impl Files for MemoryFiles {
    ghost holds = { holds_of };

    ghost opened = { λ m. m.opened };

    ghost left = { λ m. Some m.left };

    ghost faults = { λ m. m.faults };

    ghost failed = { λ m. m.failed };

    /// Fails exactly where its number is one that fails.
    fn open(&mut self, name: &str) -> Result<bool, Failed>
        ensures found { IfOk result (IsFound (Some (held_in self.old.files)) name.now) }
        ensures opened { IfOk result (λ found. self.new.opened ≡ (if found then Some name.now else None)) }
        ensures whole { IfOk result (λ found. Some self.new.left ≡ whole_of (Some (held_in self.old.files)) name.now) }
        ensures closed { OnErr result (self.new.opened ≡ None) }
        ensures nothing { OnErr result (Some self.new.left ≡ nothing_left (Some (held_in self.old.files))) }
        ensures called { Called holds_of (λ m. m.faults) (λ m. m.failed) (Some name.now) result self.old self.new }
        ensures failing { OnErr result (is_failing self.old ≡ true) }
        ensures working { OnOk result (is_failing self.old ≡ false) }
        ensures after_ok { IfOk result (λ found. self.new ≡ record self.old {
          calls = next_count self.old.calls;
          opened = if found then Some name.now else None;
          left = unwrap_or (held_in self.old.files name.now) [];
        }) }
        ensures after_err { OnErr result (self.new ≡ record self.old {
          calls = next_count self.old.calls;
          faults = next_count self.old.faults;
          opened = None;
          left = [];
          failed = name.now;
        }) }
    {
        let fails = self.fails();
        self.calls = self.calls.saturating_add(1);
        self.open = None;
        if fails {
            self.faults = self.faults.saturating_add(1);
            self.failed = self.failed.then(&Name { text: name });
            return Err(Failed);
        }
        match find(self.files.as_slice(), name) {
            Some(place) => {
                self.open = Some(OpenFile { place, cursor: 0 });
                Ok(true)
            }
            None => Ok(false),
        }
    }

    /// Fails exactly where its number is one that fails; else it gives as many bytes as a piece and the file allow.
    fn read(&mut self, into: &mut [u8]) -> Result<usize, Failed>
        ensures count { IfOk result (λ count. count ≤ length into.old) }
        ensures next { IfOk result (λ count. IfSome (Some self.old.left) (λ rest. ReadsNext rest count into.old into.new)) }
        ensures moved { IfOk result (λ count. Some self.new.left ≡ option_map (drop count) (Some self.old.left)) }
        ensures same { OnOk result (self.new.opened ≡ self.old.opened) }
        ensures none { IfOk result (λ count. self.old.opened ≡ None → count ≡ 0) }
        ensures closed { OnErr result (self.new.opened ≡ None) }
        ensures nothing { OnErr result (Some self.new.left ≡ nothing_left (Some (held_in self.old.files))) }
        ensures called { Called holds_of (λ m. m.faults) (λ m. m.failed) self.old.opened result self.old self.new }
        ensures failing { OnErr result (is_failing self.old ≡ true) }
        ensures exact { IfOk result (λ count.
            (is_failing self.old ≡ false) × (count ≡ read_count self.old (length into.old))) }
        ensures after_ok { IfOk result (λ count. self.new ≡ record self.old {
          calls = next_count self.old.calls;
          left = drop count self.old.left;
        }) }
        ensures after_err { OnErr result (self.new ≡ record self.old {
          calls = next_count self.old.calls;
          faults = next_count self.old.faults;
          opened = None;
          left = [];
          failed = unwrap_or self.old.opened self.old.failed;
        }) }
    {
        let fails = self.fails();
        self.calls = self.calls.saturating_add(1);
        if fails {
            self.faults = self.faults.saturating_add(1);
            if let Some(name) = name_of(self.files.as_slice(), self.open) {
                self.failed = self.failed.then(&Name { text: name });
            }
            self.open = None;
            return Err(Failed);
        }
        let rest = rest_of(self.files.as_slice(), self.open);
        let count = into.len().min(self.piece).min(rest.len());
        copy_front(into, rest, count);
        if let Some(open_file) = self.open {
            self.open = Some(advanced(self.files.as_slice(), open_file, count));
        }
        Ok(count)
    }
}

/// Copies the first bytes of one slice over those of another.
fn copy_front(into: &mut [u8], from: &[u8], count: usize)
    requires into { count ≤ length into.old }
    requires from { count ≤ length from.now }
    ensures { into.new ≡ take count from.now ++ drop count into.old }
{
    let (front, _) = from.split_at(count);
    into[..count].copy_from_slice(front);
}
