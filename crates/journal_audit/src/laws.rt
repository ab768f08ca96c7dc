//! Laws of the text of a journal, and of the rules that its entries keep.

ghost use Rattle.std.specs.Prelude.{◌≡◌, ◌↔◌, List, All, None};
ghost use Rattle.pool_ledger.specs.declared.entry.Entry.{Entry};
ghost use Rattle.pool_ledger.specs.Sizes.{Sizes};
ghost use Rattle.pool_ledger.specs.History.{History};
ghost use Rattle.pool_ledger.specs.Legal.{MayFollow};
ghost use Rattle.journal_audit.specs.declared.version.Version.{Version};
ghost use Rattle.journal_audit.specs.Text.{Fits, text_by};
ghost use Rattle.journal_audit.specs.Lines.{IsSetup};
ghost use Rattle.journal_audit.specs.Rules.{first_broken};

/// No text is of two versions, nor of two setups, nor of two journals. It does nothing when run.
pub fn one_journal_for_a_text()
    ensures version { (v w : Version) (a b : Sizes) (one two : List Entry) → IsSetup a → IsSetup b
        → text_by v a one ≡ text_by w b two → v ≡ w }
    ensures setup { (v w : Version) (a b : Sizes) (one two : List Entry) → IsSetup a → IsSetup b
        → text_by v a one ≡ text_by w b two → a ≡ b }
    ensures journal { (v w : Version) (a b : Sizes) (one two : List Entry) → IsSetup a → IsSetup b
        → All Fits one → All Fits two → text_by v a one ≡ text_by w b two → one ≡ two }
{}

/// An entry breaks no rule exactly where it may follow the entries before it. The rule that is told isn't
/// always the part of `MayFollow` that fails: where a block is evicted and then admitted, it isn't in
/// memory any more, so the rule that is broken is that of the victims. It does nothing when run.
pub fn rules_are_those_of_legal_journals()
    ensures { (setup : Sizes) (history : History) (entry : Entry)
        → first_broken setup history entry ≡ None ↔ MayFollow setup history entry }
{}
