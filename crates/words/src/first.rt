//! The first word of a call, which names the program.

ghost use Rattle.std.specs.Prelude.{◌≡◌, is_some};
ghost use Rattle.words.specs.Calls.{behind_first};
ghost use Rattle.words.specs.Texts.{texts};

/// Whether the first word is this name. Of no words it isn't.
pub fn begins_with(words: &[&str], name: &str) -> bool
    ensures { result ≡ is_some (behind_first name.now (texts words.now)) }
{
    match words.first() {
        Some(first) => *first == name,
        None => false,
    }
}
