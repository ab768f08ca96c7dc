//! What holds of every filter's meaning, and of every dataset's rows.

ghost use Rattle.std.specs.Prelude.{◌≡◌, ◌≢◌, ◌++◌, [], List, ℕ, false, map, true};
ghost use Rattle.std.specs.List.{filter};
ghost use Rattle.row_filter.specs.declared.chain.Chain.{Chain as AnyChain};
ghost use Rattle.row_filter.specs.declared.filter.Filter.{Filter as AnyFilter};
ghost use Rattle.row_filter.specs.declared.filter.Filter.TheVariants as filters;
ghost use Rattle.row_filter.specs.Chains.{links_of, parent_at};
ghost use Rattle.row_filter.specs.Derived.{derived, passes_own};
ghost use Rattle.row_filter.specs.Lines.{AreOrdered};
ghost use Rattle.row_filter.specs.Meaning.{columns_of, keeps};
ghost use Rattle.row_filter.specs.Moved.{moved_filter};

/// The empty `and` keeps each row and the empty `or` none, and `not` twice is the filter itself.
pub fn empty_lists_and_double_negation()
    ensures all { (field_at : ℕ → List ℕ) → keeps field_at (filters.And []) ≡ true }
    ensures none { (field_at : ℕ → List ℕ) → keeps field_at (filters.Or []) ≡ false }
    ensures twice { (field_at : ℕ → List ℕ) (filter : AnyFilter)
        → keeps field_at (filters.Not (filters.Not filter)) ≡ keeps field_at filter }
{}

/// De Morgan's laws: the rows that not all of the filters keep are those that one of their negations keeps,
/// and those that none of them keeps are those that all negations keep.
pub fn negated_lists()
    ensures all { (field_at : ℕ → List ℕ) (parts : List AnyFilter)
        → keeps field_at (filters.Not (filters.And parts)) ≡ keeps field_at (filters.Or (map filters.Not parts)) }
    ensures some { (field_at : ℕ → List ℕ) (parts : List AnyFilter)
        → keeps field_at (filters.Not (filters.Or parts)) ≡ keeps field_at (filters.And (map filters.Not parts)) }
{}

/// The rows of the input are those that landed. Those of a dataset are what its own filter keeps of the rows
/// of the dataset that it is made from, in their order. The rows of two parts of the input, one behind the
/// other, are those of the first and then those of the second.
/// Source: Spark, resilient distributed datasets, whose partitions are computed from those of their parents.
pub fn datasets_are_derived()
    ensures input { (chain : AnyChain) (rows : List (List (List ℕ))) → derived chain 0 rows ≡ rows }
    ensures made { (chain : AnyChain) (dataset : ℕ) (rows : List (List (List ℕ))) → AreOrdered (links_of chain) → dataset ≢ 0
        → derived chain dataset rows
        ≡ filter (λ row. passes_own chain row dataset) (derived chain (parent_at chain dataset) rows) }
    ensures parts { (chain : AnyChain) (dataset : ℕ) (front back : List (List (List ℕ)))
        → derived chain dataset (front ++ back) ≡ derived chain dataset front ++ derived chain dataset back }
{}

/// A filter whose columns are moved keeps what the filter keeps of the moved fields, and its columns are the
/// filter's, moved.
pub fn moved_filters_keep()
    ensures keeps { (move : ℕ → ℕ) (field_at : ℕ → List ℕ) (filter : AnyFilter)
        → keeps field_at (moved_filter move filter) ≡ keeps (λ column. field_at (move column)) filter }
    ensures columns { (move : ℕ → ℕ) (filter : AnyFilter)
        → columns_of (moved_filter move filter) ≡ map move (columns_of filter) }
{}
