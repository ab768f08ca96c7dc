// The bytes of a key, or of a value.
ghost use Rattle.std.specs.Prelude.{◌≡◌};

use std::marker::Model;

/// The key of a row, or its value: bytes, which compare as the fields that they spell.
#[derive(Debug, Drop)]
pub struct Key {
    bytes: Vec<u8>,
}

impl Model for Key {
    ghost use Rattle.std.specs.Prelude.{List, ℕ};

    ghost Value = { List ℕ };

    ghost view = { λ key. key.bytes.items };
}

impl Key {
    /// The key with these bytes. Takes no memory.
    pub fn of(bytes: Vec<u8>) -> Self
        ensures { result ≡ bytes.items }
    {
        Key { bytes }
    }

    /// The key's bytes.
    pub fn bytes(&self) -> &[u8]
        ensures { result.now ≡ self.now }
    {
        &self.bytes
    }
}
