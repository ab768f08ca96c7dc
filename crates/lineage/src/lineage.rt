//! The datasets of a plan over landed partitions.

use row_filter::Chain;
use run_file::Run;
use std::marker::Model;

/// The datasets of a plan over the landed partitions of its input.
#[derive(Drop)]
pub struct Lineage<'a> {
    /// Of what each dataset is made, and at which level it is kept.
    pub chain: &'a Chain,
    /// The landed runs of the partitions, in order.
    pub landed: &'a [Run],
    /// How many rows a partition has, but for the last, which may have fewer. The rows of all are numbered from 1.
    pub part_rows: u64,
}

impl<'a> Model for Lineage<'a> {
    ghost use Rattle.std.specs.Coded.{codes};
    ghost use Rattle.row_filter.specs.contracts.chain.Chain as chain_row;
    ghost use Rattle.lineage.specs.LineageViews.{LineageView};

    ghost Value = { LineageView };

    ghost coded = { Prim.hlevel (codes, chain_row.the_row.coded) };

    ghost view = { λ lineage. record {
      chain = lineage.chain.now;
      landed = lineage.landed.now;
      part_rows = lineage.part_rows;
    } };
}
