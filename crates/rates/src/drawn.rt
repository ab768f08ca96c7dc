//! Entries that are drawn.

ghost use Rattle.std.specs.Prelude.{◌≡◌, length};

/// Draws one number after another. The same numbers come each time.
#[derive(Clone, Copy)]
pub struct Drawn {
    state: u64,
}

impl Drawn {
    /// The start.
    pub fn new() -> Drawn {
        Drawn { state: 1 }
    }

    /// The next key of 8 bytes: one of so many.
    pub fn key(&mut self, keys: u64) -> [u8; 8]
        ensures { length result ≡ 8 }
    {
        self.state = self
            .state
            .wrapping_mul(6_364_136_223_846_793_005)
            .wrapping_add(1_442_695_040_888_963_407);
        let drawn = (self.state >> 20) % keys.max(1);
        drawn.to_be_bytes()
    }
}
