// What calls answer, as a text that is compared at the end.
use std::alloc::{AllocError, Global};
use std::process::Abort;
use std::test::Fail;

/// A text that grows. It keeps whether memory was short, so that nothing that adds to it answers.
#[derive(Drop)]
pub struct Told {
    pub text: String,
    is_short: bool,
}

impl Told {
    /// An empty one.
    pub fn new(alloc: Global) -> Told {
        Told {
            text: String::new(alloc),
            is_short: false,
        }
    }

    /// Adds words.
    pub fn put(&mut self, words: &str) {
        if self.text.push_str(words).is_err() {
            self.is_short = true;
        }
    }

    /// Begins a call: its words behind a blank, and a `=`.
    pub fn begin(&mut self, call: &str) {
        if write!(self.text, " {call}=").is_err() {
            self.is_short = true;
        }
    }

    /// Adds a number.
    pub fn put_number(&mut self, number: u64) {
        if write!(self.text, "{number}").is_err() {
            self.is_short = true;
        }
    }

    /// Adds a call that is answered by a number.
    pub fn put_count(&mut self, call: &str, count: u64) {
        if write!(self.text, " {call}={count}").is_err() {
            self.is_short = true;
        }
    }

    /// Adds whether something is so.
    pub fn put_bool(&mut self, is_so: bool) {
        self.put(if is_so { "yes" } else { "no" });
    }

    /// Adds bytes, two digits each.
    pub fn put_hex(&mut self, bytes: &[u8]) {
        for byte in bytes {
            if write!(self.text, "{byte:02x}").is_err() {
                self.is_short = true;
            }
        }
    }

    /// Adds bytes as letters, with a dot for each byte of 0.
    pub fn put_letters(&mut self, bytes: &[u8]) {
        for byte in bytes {
            let letter = if *byte == 0 { '.' } else { char::from(*byte) };
            if self.text.push(letter).is_err() {
                self.is_short = true;
            }
        }
    }

    /// Memory was short.
    pub fn lack(&mut self) {
        self.is_short = true;
    }

    /// Memory was short where this didn't succeed.
    pub fn need(&mut self, is_ok: bool) {
        if !is_ok {
            self.is_short = true;
        }
    }
}

/// This was told. Want of memory ends the test.
pub fn tells(rt: &impl Abort, told: &Told, wanted: &str, name: &str) -> Result<(), Fail> {
    if told.is_short {
        return Err(AllocError.into());
    }
    assert_eq!(rt; told.text.as_str(), wanted, "{name}");
    Ok(())
}
