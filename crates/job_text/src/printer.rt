//! A text that grows by tokens.

ghost use Rattle.std.specs.Prelude.{◌≡◌, ◌<◌, ◌++◌, ◌∷◌, [], IfOk, Some, string_bytes};
ghost use Rattle.job_text.specs.declared.token.Token.TheVariants.{Fixed, Text, Whole, Word};
ghost use Rattle.job_text.specs.Printing.{column_token, doubled, token_text, is_attached};
ghost use Rattle.job_text.specs.Sheets.{blank_sheet, lead, with_token};

use crate::mark::Mark;
use crate::tokens::is_plain;
use item_lists::Name;
use std::alloc::{AllocError, Global};
use std::marker::Model;

/// A text to which tokens are added, with a blank between two of them where one belongs.
#[derive(Debug, Drop)]
pub(crate) struct Printer {
    out: String,
    /// Whether a blank comes before a token that isn't attached.
    apart: bool,
}

impl Model for Printer {
    ghost use Rattle.std.specs.Prelude.{string_bytes};
    ghost use Rattle.job_text.specs.Sheets.{Sheet};

    ghost Value = { Sheet };

    ghost view = { λ printer. record { text = string_bytes printer.out; apart = printer.apart } };
}

impl Printer {
    pub(crate) fn new(alloc: Global) -> Printer
        ensures { result ≡ blank_sheet }
    {
        Printer {
            out: String::new(alloc),
            apart: false,
        }
    }

    /// Adds a reserved word or a sign.
    pub(crate) fn mark(&mut self, mark: Mark) -> Result<(), AllocError>
        ensures { IfOk result (λ _. self.new ≡ with_token self.old (Fixed mark)) }
    {
        let attached = matches!(
            mark,
            Mark::Comma | Mark::Colon | Mark::Semicolon | Mark::Close
        );
        if self.apart && !attached {
            self.out.push(' ')?;
        }
        self.out.push_str(mark.text())?;
        self.apart = mark != Mark::Open;
        Ok(())
    }

    /// Adds a column: a word where that is possible, and in quotes else.
    pub(crate) fn column(&mut self, name: &Name) -> Result<(), AllocError>
        ensures { IfOk result (λ _. self.new ≡ with_token self.old (column_token name.now)) }
    {
        if self.apart {
            self.out.push(' ')?;
        }
        if is_plain(name.text()) {
            self.out.push_str(name.text())?;
        } else {
            push_quoted(&mut self.out, '"', name.text())?;
        }
        self.apart = true;
        Ok(())
    }

    /// Adds a word that isn't reserved.
    pub(crate) fn word(&mut self, name: &Name) -> Result<(), AllocError>
        ensures { IfOk result (λ _. self.new ≡ with_token self.old (Word name.now)) }
    {
        if self.apart {
            self.out.push(' ')?;
        }
        self.out.push_str(name.text())?;
        self.apart = true;
        Ok(())
    }

    /// Adds a text.
    pub(crate) fn text(&mut self, text: &Name) -> Result<(), AllocError>
        ensures { IfOk result (λ _. self.new ≡ with_token self.old (Text text.now)) }
    {
        if self.apart {
            self.out.push(' ')?;
        }
        push_quoted(&mut self.out, '\'', text.text())?;
        self.apart = true;
        Ok(())
    }

    /// Adds a whole number.
    pub(crate) fn whole(&mut self, number: i64) -> Result<(), AllocError>
        ensures { IfOk result (λ _. self.new ≡ with_token self.old (Whole (Some number))) }
    {
        if self.apart {
            self.out.push(' ')?;
        }
        write!(self.out, "{number}")?;
        self.apart = true;
        Ok(())
    }

    /// The text.
    pub(crate) fn into_text(self) -> String
        ensures { string_bytes result ≡ self.text }
    {
        self.out
    }
}

fn push_quoted(out: &mut String, quote: char, name: &str) -> Result<(), AllocError>
    requires ascii { quote < 128 }
    ensures { IfOk result (λ _. string_bytes out.new ≡ string_bytes out.old ++ quote ∷ doubled quote name.now ++ quote ∷ []) }
{
    out.push(quote)?;
    let mut rest = name;
    while let Some((before, after)) = rest.split_once(quote) {
        out.push_str(before)?;
        push_twice(out, quote)?;
        rest = after;
    }
    out.push_str(rest)?;
    out.push(quote)?;
    Ok(())
}

fn push_twice(out: &mut String, quote: char) -> Result<(), AllocError>
    requires ascii { quote < 128 }
    ensures { IfOk result (λ _. string_bytes out.new ≡ string_bytes out.old ++ quote ∷ quote ∷ []) }
{
    out.push(quote)?;
    out.push(quote)?;
    Ok(())
}
