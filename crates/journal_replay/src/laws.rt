//! Laws of verdicts.

ghost use Rattle.std.specs.Prelude.{◌≡◌, ℕ, List, All, length};
ghost use Rattle.pool_ledger.specs.declared.entry.Entry.{Entry};
ghost use Rattle.pool_ledger.specs.Sizes.{Sizes};
ghost use Rattle.pool_ledger.specs.Journal.{history_of};
ghost use Rattle.pool_ledger.specs.Legal.{IsLegal};
ghost use Rattle.journal_audit.specs.declared.version.Version.{Version};
ghost use Rattle.journal_audit.specs.Text.{Fits, FitsIn, text_by, text_of};
ghost use Rattle.journal_audit.specs.Lines.{IsSetup};
ghost use Rattle.journal_replay.specs.declared.verdict.Verdict.{Verdict};
ghost use Rattle.journal_replay.specs.declared.verdict.Verdict.TheVariants.{Yes};
ghost use Rattle.journal_replay.specs.Verdicts.{IsVerdict};

/// A text has one verdict, so what an audit tells of a text is the first thing that is wrong with it, and no
/// other; and the text of a legal journal has the verdict that it is one, in each version in which its entries
/// have lines. It does nothing when run.
pub fn one_verdict_for_a_text()
    ensures one { (text : List ℕ) (one two : Verdict) → IsVerdict text one → IsVerdict text two → one ≡ two }
    ensures legal { (setup : Sizes) (entries : List Entry) → IsSetup setup → All Fits entries
        → IsLegal setup (history_of entries) → IsVerdict (text_of setup entries) (Yes (length entries)) }
    ensures versions { (version : Version) (setup : Sizes) (entries : List Entry) → IsSetup setup
        → All (FitsIn version) entries → IsLegal setup (history_of entries)
        → IsVerdict (text_by version setup entries) (Yes (length entries)) }
{}
