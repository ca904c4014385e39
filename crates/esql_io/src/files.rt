ghost use Rattle.std.specs.Prelude.{◌≡◌, ◌≤◌, ℕ, List, Option, Some, None, drop, length, option_map, if◌then◌else◌, OnOk, OnErr, IfOk, IfSome};
ghost use Rattle.esql_io.specs.Calls.{Called};
ghost use Rattle.esql_io.specs.Files.{Held, whole_of, nothing_left, IsFound, ReadsNext};

/// A call on files or on a sink failed, and was counted as a fault.
#[derive(Clone, Copy, Debug, PartialEq, Eq)]
pub struct Failed;

/// Files that are opened by name and read from the first byte to the last, one at a time.
pub trait Files {
    /// The bytes of each name, where the files tell them. No call changes it.
    ghost holds: { Self → Held };

    /// The name of the file that is open.
    ghost opened: { Self → Option (List ℕ) };

    /// The bytes of the open file that were not read yet, none where no file is open; `None` where they are not told.
    ghost left: { Self → Option (List ℕ) };

    /// How many calls failed. It never falls.
    ghost faults: { Self → ℕ };

    /// The name at the last call that failed: the one handed to `open`, or that of the file that was open. Empty where
    /// none failed.
    ghost failed: { Self → List ℕ };

    /// Closes the file that is open and opens another; answers whether it is there. After `Ok(false)` and after a
    /// failure no file is open.
    fn open(&mut self, name: &str) -> Result<bool, Failed>
        ensures found { IfOk result (λ found. IsFound (holds self.old) name.now found) }
        ensures opened { IfOk result (λ found. opened self.new ≡ (if found then Some name.now else None)) }
        ensures whole { IfOk result (λ found. left self.new ≡ whole_of (holds self.old) name.now) }
        ensures closed { OnErr result (opened self.new ≡ None) }
        ensures nothing { OnErr result (left self.new ≡ nothing_left (holds self.old)) }
        ensures called { Called holds faults failed (Some name.now) result self.old self.new };

    /// Reads the next bytes of the open file into the front of a piece, and answers how many: none where no file is open.
    /// After a failure no file is open.
    fn read(&mut self, into: &mut [u8]) -> Result<usize, Failed>
        ensures count { IfOk result (λ count. count ≤ length into.old) }
        ensures next { IfOk result (λ count. IfSome (left self.old) (λ rest. ReadsNext rest count into.old into.new)) }
        ensures moved { IfOk result (λ count. left self.new ≡ option_map (drop count) (left self.old)) }
        ensures same { OnOk result (opened self.new ≡ opened self.old) }
        ensures none { IfOk result (λ count. opened self.old ≡ None → count ≡ 0) }
        ensures closed { OnErr result (opened self.new ≡ None) }
        ensures nothing { OnErr result (left self.new ≡ nothing_left (holds self.old)) }
        ensures called { Called holds faults failed (opened self.old) result self.old self.new };
}
