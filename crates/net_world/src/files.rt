//! Files, as callers see them.

ghost use Rattle.std.specs.Prelude.{◌≡◌, List, ℕ, Option, IfOk};
ghost use Rattle.net_world.specs.declared.read_call.ReadCall.{ReadCall};
ghost use Rattle.net_world.specs.Cause.{HasCause, is_not_read};
ghost use Rattle.net_world.specs.Files.{IsReadOf};
ghost use Rattle.net_world.specs.Logs.{Logs};

use crate::answers::FileRead;
use dns_message::NoMemory;

/// Files that can be read. After `NoMemory` they are as before.
pub trait Files {
    /// The bytes of the file of each path that has one, where they are told.
    ghost files: { Self → Option (List ℕ → Option (List ℕ)) };

    /// How often a read failed.
    ghost faults: { Self → ℕ };

    /// All its reads with their answers, where it tells them.
    ghost reads: { Self → Option (List ReadCall) };

    /// Reads the whole file of this path, where it has at most so many bytes.
    fn read(&mut self, path: &str, most: u64) -> Result<FileRead, NoMemory>
        ensures answer { IfOk result (IsReadOf (files self.old) path.now most) }
        ensures cause { HasCause (faults self.old) (faults self.new) is_not_read result }
        ensures files { files self.new ≡ files self.old }
        ensures reads { Logs (reads self.old) (reads self.new) result (λ read. record { path = path.now; most = most; read = read }) };
}
