//! What holds of the input of each trial.

ghost use Rattle.trial_input.specs.Laws.{TrialsAreGood, TrialsFit};

/// The text of a trial is read as its heading and its rows, and its job's checks refuse none of them. It does nothing
/// when run.
pub fn trials_are_good()
    ensures { TrialsAreGood }
{}

/// No sum of a trial's job is too wide to be told. It does nothing when run.
pub fn trials_fit()
    ensures { TrialsFit }
{}
