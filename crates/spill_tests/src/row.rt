//! The entries that a spiller keeps.

ghost use Rattle.std.specs.Prelude.{◌≤◌, length};

/// A key and its value.
#[derive(Drop)]
pub struct Row {
    /// What entries are told apart by.
    pub key: Vec<u8>,
    /// What the key stands for.
    pub value: Vec<u8>,
    ghost key_fits: { length key.items ≤ 131152 },
    ghost value_fits: { length value.items ≤ 65568 },
}
