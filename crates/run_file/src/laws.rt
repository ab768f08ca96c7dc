//! What holds of runs, whoever writes them.

ghost use Rattle.std.specs.Prelude.{List, ℕ, Some, IsSome};
ghost use Rattle.std.specs.FinMap as map;
ghost use Rattle.spill_disk.specs.Files.{Files, IsThere};
ghost use Rattle.run_file.specs.declared.run.Run.{Run};
ghost use Rattle.run_file.specs.Runs.{CountsRows, IsFileOf, Stands};

use row_page::pages_have_their_length;

/// A run whose file has its rows and nothing else stands, as a writer leaves it.
pub fn written_runs_stand()
    ensures { (files : Files) (run : Run) (rows : List (List (List ℕ))) → IsThere (Some files) run.file →
        IsFileOf (Some files) run.file rows → CountsRows run rows → Stands (Some files) run rows }
{
    pages_have_their_length();
}
