ghost use Rattle.std.specs.Prelude.{◌≤◌};
ghost use Rattle.pool_ledger.specs.Sizes.{Sizes};
ghost use Rattle.pool_ledger.specs.History.{History};
ghost use Rattle.pool_laws.specs.ByGroups.{GroupsAreLegal};

/// The journals that are legal entry by entry are those that are legal by groups, each of which is some
/// evictions and the event that they are for: a journal that ends amid evictions is neither. It does nothing
/// when run.
pub fn groups_are_legal()
    ensures { (setup : Sizes) (history : History) → setup.region ≤ setup.maximum → GroupsAreLegal setup history }
{}
