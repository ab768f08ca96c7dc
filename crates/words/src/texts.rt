//! Words are text.

ghost use Rattle.std.specs.Str.{IsUtf8};
ghost use Rattle.words.specs.Texts.{AreTexts, texts};

/// Each word is UTF-8. It changes nothing, and is called for what it ensures.
pub fn are_texts(words: &[&str])
    ensures { AreTexts (texts words.now) }
{
    for word in words {
        is_text(word);
    }
}

fn is_text(word: &str)
    ensures { IsUtf8 word.now }
{}
