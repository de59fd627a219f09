ghost use Rattle.std.specs.Prelude.{◌≡◌, ◌+◌, ◌<◌, ◌≤◌, ◌++◌, ◌∷◌, [], length};

use std::marker::Model;

/// Bytes, at most 64, which the value itself holds.
#[derive(Drop)]
pub struct Buffer {
    bytes: [u8; 64],
    len: usize,
}

impl Model for Buffer {
    ghost use Rattle.std.specs.Prelude.{◌≤◌, take};
    ghost use Rattle.wasm_encode_view.specs.Buffer.{Written};

    ghost Value = { Written };

    ghost view = { λ b. record { items = take b.len b.bytes } };

    ghost invariant = { λ b. b.len ≤ 64 };
}

impl Buffer {
    pub(crate) fn new() -> Buffer
        ensures { result.items ≡ [] }
    {
        Buffer {
            bytes: [0; 64],
            len: 0,
        }
    }

    /// Appends a byte.
    pub(crate) fn push(&mut self, byte: u8)
        requires { length self.old.items < 64 }
        ensures items { self.new.items ≡ self.old.items ++ byte ∷ [] }
        ensures len { length self.new.items ≡ length self.old.items + 1 }
    {
        self.bytes[self.len] = byte;
        self.len += 1;
    }

    /// Appends bytes.
    pub(crate) fn extend(&mut self, bytes: &[u8])
        requires { length self.old.items + length bytes.now ≤ 64 }
        ensures { self.new.items ≡ self.old.items ++ bytes.now }
    {
        let end = self.len + bytes.len();
        self.bytes[self.len..end].copy_from_slice(bytes);
        self.len = end;
    }

    pub fn as_slice(&self) -> &[u8]
        ensures { result.now ≡ self.now.items }
    {
        &self.bytes[..self.len]
    }
}
