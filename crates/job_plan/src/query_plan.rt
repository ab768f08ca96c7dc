//! What is done with a job's input: which columns are kept, which passes there are, and what each query makes
//! of a row.

ghost use Rattle.std.specs.Prelude.{◌≤◌, ◌^◌};
ghost use Rattle.row_filter.specs.Chains.{form_of, links_of};
ghost use Rattle.job_plan.specs.Planning.{ArePlanned};

use crate::entries::{put_key, put_value};
use crate::passing::Pass;
use crate::planned::Planned;
use aggregate::Kind;
use item_lists::Name;
use job_text::Shape;
use row_filter::Chain;
use row_page::RowView;
use std::alloc::AllocError;

/// A job over the columns of one header.
#[derive(Drop)]
pub struct Plan {
    pub(crate) places: Vec<u32>,
    // The names of the kept columns, and those of the datasets from number 1 on.
    pub(crate) columns: Vec<Name>,
    pub(crate) names: Vec<Name>,
    pub(crate) chain: Chain,
    pub(crate) queries: Vec<Planned>,
    pub(crate) passes: Vec<Pass>,
    pub(crate) first_task: u32,
    ghost planned: { ∥ ArePlanned (form_of chain) (links_of chain) queries.items passes.items ∥₁ },
    ghost low: { first_task ≤ 2 ^ 31 },
}

impl Plan {
    ghost use Rattle.std.specs.Prelude.{◌≡◌, ◌+◌, ◌<◌, [], OnOk, length, slice_index_or};
    ghost use Rattle.row_filter.specs.Chains.{base_of};
    ghost use Rattle.row_page.specs.Views.{fields_in};
    ghost use Rattle.row_form.specs.Forms.{HasForm, IsValueOf};
    ghost use Rattle.job_plan.specs.Entries.{field_bytes, key_of, kind_of, value_of};
    ghost use Rattle.job_plan.specs.Planning.{FitsChain, FitsQueries};
    ghost use Rattle.job_plan.specs.Plans.{
      chain_in,
      first_task_of,
      form_in,
      heading_at,
      kept_at,
      kept_in,
      kind_at,
      passes_in,
      places_in,
      queries_in,
      removed_in,
      shape_at,
      task_of,
      IsSamePlan,
    };

    /// The places of the kept columns in the header, from 0, ascending.
    pub fn places(&self) -> &[u32]
        ensures { result.now ≡ places_in self.now }
    {
        &self.places
    }

    /// The datasets, and the form of the input's landed rows.
    pub fn chain(&self) -> &Chain
        ensures is { result.now ≡ chain_in self.now }
        ensures fits { FitsChain (form_in self.now) (links_of (chain_in self.now)) }
    {
        &self.chain
    }

    /// How many passes there are, each over all rows of a dataset.
    pub fn passes(&self) -> u32
        ensures count { result ≡ length (passes_in self.now) }
        ensures some { 1 ≤ result }
        ensures few { result ≤ 8 }
    {
        self.passes.len() as u32
    }

    /// The dataset of a pass; 0 is the input.
    pub fn dataset(&self, pass: u32) -> u32
        requires { pass < length (passes_in self.now) }
        ensures is { result ≡ slice_index_or (passes_in self.now) pass 0 }
        ensures there { result ≤ length (links_of (chain_in self.now)) }
    {
        self.passes[pass as usize].dataset
    }

    /// The queries of a pass, ascending.
    pub fn queries(&self, pass: u32) -> &[u32]
        requires { pass < length (passes_in self.now) }
        ensures are { result.now ≡ slice_index_or (queries_in self.now) pass [] }
        ensures fit { FitsQueries (length (kept_in self.now)) result.now }
    {
        &self.passes[pass as usize].queries
    }

    /// The datasets whose blocks are removed after a pass, ascending.
    pub fn removed(&self, pass: u32) -> &[u32]
        requires { pass < length (passes_in self.now) }
        ensures { result.now ≡ slice_index_or (removed_in self.now) pass [] }
    {
        &self.passes[pass as usize].removed
    }

    /// The number of the task for a partition of a pass, or with `partitions` in its place of the pass's
    /// final task.
    pub fn task(&self, partitions: u32, pass: u32, part: u32) -> u32
        requires pass { pass < length (passes_in self.now) }
        requires few { partitions ≤ 10000000 }
        requires part { part ≤ partitions }
        ensures { result ≡ first_task_of self.now + task_of partitions pass part }
    {
        // For the proof: there are at most eight passes.
        let _ = self.passes();
        self.first_task + pass * (partitions + 1) + part
    }

    /// The same plan, whose blocks name the input by the number `dataset` and the other datasets by those behind
    /// it, and whose first task has the number `task`: so that several jobs share one pool. Takes no memory.
    pub fn based(self, dataset: u32, task: u32) -> Plan
        requires dataset { dataset ≤ 4096 }
        requires task { task ≤ 2 ^ 31 }
        ensures base { base_of (chain_in result) ≡ dataset }
        ensures first { first_task_of result ≡ task }
        ensures same { IsSamePlan self result }
    {
        let Plan {
            places,
            columns,
            names,
            chain,
            queries,
            passes,
            ..
        } = self;
        Plan {
            places,
            columns,
            names,
            chain: chain.based(dataset),
            queries,
            passes,
            first_task: task,
        }
    }

    /// How many queries there are.
    pub fn query_count(&self) -> u32
        ensures { result ≡ length (kept_in self.now) }
    {
        self.queries.len() as u32
    }

    /// The query's shape in the job.
    pub fn shape(&self, query: u32) -> &Shape
        requires { query < length (kept_in self.now) }
        ensures { result.now ≡ shape_at self.now query }
    {
        &self.queries[query as usize].shape
    }

    /// The query's shape over the kept columns.
    pub fn kept(&self, query: u32) -> &Shape
        requires { query < length (kept_in self.now) }
        ensures { result.now ≡ kept_at self.now query }
    {
        &self.queries[query as usize].kept
    }

    /// How the entries of a query are combined.
    pub fn kind(&self, query: u32) -> &Kind
        requires { query < length (kept_in self.now) }
        ensures { result.now ≡ kind_at self.now query }
    {
        &self.queries[query as usize].kind
    }

    /// The first row of a query's table.
    pub fn heading(&self, query: u32) -> RowView<'_>
        requires { query < length (kept_in self.now) }
        ensures { fields_in result ≡ heading_at self.now query }
    {
        self.queries[query as usize].heading.view()
    }

    /// Makes the key and the value of a landed row for a query, in place of what the two vectors have.
    /// After an `Err` they have any bytes.
    pub fn entry(
        &self,
        query: u32,
        row: RowView<'_>,
        key: &mut Vec<u8>,
        value: &mut Vec<u8>,
    ) -> Result<(), AllocError>
        requires query { query < length (kept_in self.now) }
        requires row { HasForm (form_in self.now) (fields_in row) }
        ensures key { OnOk result (key.new.items ≡ key_of (kept_at self.now query) (fields_in row.entry)) }
        ensures value { OnOk result (value.new.items ≡ value_of (kept_at self.now query) (fields_in row.entry)) }
        ensures kind { OnOk result (IsValueOf (kind_at self.now query) value.new.items) }
        ensures short_key { OnOk result (field_bytes (fields_in row.entry) ≤ 65536 → length key.new.items ≤ 131152) }
        ensures short_value { OnOk result (field_bytes (fields_in row.entry) ≤ 65536 → length value.new.items ≤ 65568) }
    {
        let shape = &self.queries[query as usize].kept;
        key.clear();
        value.clear();
        put_key(key, shape, &row)?;
        put_value(value, shape, &row)
    }
}
