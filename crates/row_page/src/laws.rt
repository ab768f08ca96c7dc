//! What holds of the grammar of rows and pages, whoever reads or writes them.

ghost use Rattle.std.specs.Prelude.{◌≡◌, ◌<◌, ◌^◌, List, ℕ, length};
ghost use Rattle.row_page.specs.Grammar.{IsPieceThen, IsRow, IsPage};
ghost use Rattle.row_page.specs.Spelling.{row_bytes, row_length, page_length};

/// Each list of fields whose encoding fits has an encoding and no other, and each encoding is of one
/// list.
pub fn fields_have_one_encoding()
    ensures some { (fields : List (List ℕ)) → row_length fields < 2 ^ 32 →
        IsRow (row_bytes fields) fields }
    ensures one { (a b : List ℕ) (fields : List (List ℕ)) → IsRow a fields → IsRow b fields →
        a ≡ b }
    ensures back { (bytes : List ℕ) (f g : List (List ℕ)) → IsRow bytes f → IsRow bytes g → f ≡ g }
{}

/// No piece with its length begins another: at the front of some bytes stands one piece, or none, and
/// so one row, or none.
pub fn no_encoding_begins_another()
    ensures pieces { (bytes a b x y : List ℕ) →
        IsPieceThen bytes a x → IsPieceThen bytes b y → (a ≡ b) × (x ≡ y) }
    ensures rows { (bytes a b x y : List ℕ) (f g : List (List ℕ)) →
        IsPieceThen bytes a x → IsRow a f → IsPieceThen bytes b y → IsRow b g → (f ≡ g) × (x ≡ y) }
{}

/// The bytes of a page are as long as its rows' encodings with their lengths.
pub fn pages_have_their_length()
    ensures { (bytes : List ℕ) (rows : List (List (List ℕ))) → IsPage bytes rows →
        length bytes ≡ page_length rows }
{}
