//! How a cache finds a question: by its kind, its class, and its name in lower case (RFC 4343, section 3).

ghost use Rattle.std.specs.Prelude.{OnOk, IfOk};
ghost use Rattle.query_cache.specs.Key.{IsKeyOf};

use dns_message::{NoMemory, Question};
use std::alloc::Global;
use std::hash::{Hash, Hasher};

/// A question with its name in lower case. Two are equal exactly where their questions are the same.
#[derive(Debug, Drop, PartialEq, Eq)]
pub(crate) struct Key {
    /// The question's type.
    kind: u16,
    class: u16,
    /// The name's labels, each behind its length, in lower case.
    name: Vec<u8>,
}

// The name is fed at once, so that a hash takes it eight bytes at a time.
impl Hash for Key {
    ghost use Rattle.std.specs.Prelude.{[], ◌∷◌, ◌+◌, ◌*◌};
    ghost use Rattle.std.specs.Hash as fed;
    ghost use Rattle.std.specs.Cmp.Rules.{hashing};
    ghost use borrow.Author.Rules.{rules};

    ghost hash_input = { λ key. key.name.items ∷ fed.u32 (key.kind * 65536 + key.class) };

    ghost respects_eq = { Prim.search (hashing, rules) };

    #[inline(always)]
    fn hash<H: Hasher>(&self, state: &mut H) {
        state.write(self.name.as_slice());
        state.write_u32(self.kind as u32 * 65_536 + self.class as u32);
    }
}

impl Key {
    /// The key of the root, with kind and class 0. It takes no memory.
    pub(crate) fn blank(alloc: Global) -> Key {
        Key {
            kind: 0,
            class: 0,
            name: Vec::new(alloc),
        }
    }

    /// The key of a question.
    pub(crate) fn of(alloc: Global, asked: &Question) -> Result<Key, NoMemory>
        ensures { IfOk result (IsKeyOf asked.now) }
    {
        let mut key = Key::blank(alloc);
        key.set(asked)?;
        Ok(key)
    }

    /// Makes this the key of a question.
    #[inline(always)]
    pub(crate) fn set(&mut self, asked: &Question) -> Result<(), NoMemory>
        ensures { OnOk result (IsKeyOf asked.now self.new) }
    {
        self.kind = asked.kind;
        self.class = asked.class;
        self.name.clear();
        self.name.extend_from_slice(asked.name.as_wire())?;
        self.name.as_mut_slice().make_ascii_lowercase();
        Ok(())
    }
}
