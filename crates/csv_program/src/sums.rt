//! The sums of a run's queries, looked at before anything is printed.

ghost use Rattle.std.specs.Prelude.{◌≡◌, ◌⊎◌, ◌≢◌, ◌<◌, ℕ, All, List, None, IfErr, IfOk, IfSome, OnOk, length, map, option_map};
ghost use Rattle.aggregate.specs.Totals.{Entry};
ghost use Rattle.fault_count.specs.Faults.{Rose};
ghost use Rattle.job_answer.specs.Laws.{wide_total};
ghost use Rattle.job_plan.specs.Plans.{kept_at, kept_in, kind_at};
ghost use Rattle.result_table.specs.Results.{HasResult, IsDamageOfResult};
ghost use Rattle.run_file.specs.Causes.{NotDamaged};
ghost use Rattle.run_file.specs.Shelved.{LeavesFiles, faults_on, files_on};
ghost use Rattle.run_merge.specs.Causes.{HasCauseAmong};
ghost use Rattle.job_ending.specs.Endings.{MayEndAs, ending_of_totals, wide_of};
ghost use Rattle.csv_program.specs.Posts.{IsDiskOf};
ghost use Rattle.csv_program.specs.QueryResults.{HaveResults};
ghost use Rattle.job_ending.specs.Statuses.{IsDamaged, IsDamagedOn, IsDiskFault, IsOfSums, IsUnprinted, TellsWide};

use aggregate::{Key, Kind};
use job_ending::Status;
use job_plan::Plan;
use result_table::too_wide;
use run_file::{Run, RunFault};
use spill_disk::{Disk, Shelf};
use std::alloc::Global;

// The key of a query's first group with a number that leaves 64 bits; an order has none.
fn find_wide<D: Disk, H: Shelf<D>>(
    alloc: Global,
    shelf: &mut H,
    plan: &Plan,
    query: u32,
    answer: Option<&Run>,
) -> Result<Option<Key>, RunFault>
    requires query { query < length (kept_in plan.now) }
    requires there { IfSome (option_map (λ run. run.now) answer) (λ run. run.disk < H.count_of shelf.old) }
    ensures ok { IfOk result (λ key. (entries : List Entry) →
        HasResult (files_on H.disk_of D.files shelf.old) (kind_at plan.now query) (option_map (λ run. run.now) answer.entry) entries →
        key ≡ option_map (λ entry. entry.key) (wide_total (kept_at plan.now query) entries)) }
    ensures undamaged { (entries : List Entry) →
        HasResult (files_on H.disk_of D.files shelf.old) (kind_at plan.now query) (option_map (λ run. run.now) answer.entry) entries →
        NotDamaged result }
    ensures damaged { IsDamageOfResult (option_map (λ run. run.now) answer.entry) result }
    ensures cause { HasCauseAmong (faults_on H.disk_of D.faults shelf.old) (faults_on H.disk_of D.faults shelf.new) result }
    ensures shelf { LeavesFiles H.count_of H.named H.disk_of D.files D.faults shelf.old shelf.new }
{
    match plan.kind(query) {
        Kind::Group(aggs) => too_wide(alloc, shelf, answer, aggs),
        Kind::Order => Ok(None),
    }
}

// Looks at the sums of one query.
fn check_query<D: Disk, H: Shelf<D>>(
    alloc: Global,
    shelf: &mut H,
    plan: &Plan,
    query: u32,
    answer: Option<&Run>,
) -> Result<(), Status>
    requires query { query < length (kept_in plan.now) }
    requires there { IfSome (option_map (λ run. run.now) answer) (λ run. run.disk < H.count_of shelf.old) }
    ensures ok { OnOk result ((entries : List Entry) →
        HasResult (files_on H.disk_of D.files shelf.old) (kind_at plan.now query) (option_map (λ run. run.now) answer.entry) entries →
        wide_total (kept_at plan.now query) entries ≡ None) }
    ensures ending { (entries : List Entry) →
        HasResult (files_on H.disk_of D.files shelf.old) (kind_at plan.now query) (option_map (λ run. run.now) answer.entry) entries →
        IfErr result (λ ended. IsUnprinted ended ⊎ TellsWide query (wide_total (kept_at plan.now query) entries) ended) }
    ensures of_sums { IfErr result IsOfSums }
    ensures disk { IfErr result (λ ended. IsDiskFault ended (λ post.
        Rose (faults_on H.disk_of D.faults shelf.old post) (faults_on H.disk_of D.faults shelf.new post))) }
    ensures damaged { IfErr result (λ ended. IsDamaged ended (λ kept found. found < kept)) }
    ensures named { IfErr result (λ ended. IsDamagedOn ended (IsDiskOf (option_map (λ run. run.now) answer.entry))) }
    ensures shelf { LeavesFiles H.count_of H.named H.disk_of D.files D.faults shelf.old shelf.new }
{
    match find_wide(alloc, shelf, plan, query, answer) {
        Ok(None) => Ok(()),
        Ok(Some(key)) => Err(Status::SumTooWide { query, key }),
        Err(fault) => Err(Status::from(fault)),
    }
}

/// Looks at the sums of all queries, in their order: an `Err` tells the first group of the first query with a number that leaves
/// 64 bits, or why a result couldn't be read.
pub fn check_sums<D: Disk, H: Shelf<D>>(
    alloc: Global,
    shelf: &mut H,
    plan: &Plan,
    answers: &[Option<Run>],
) -> Result<(), Status>
    requires all { length answers.now ≡ length (kept_in plan.now) }
    requires there { All (λ answer. IfSome answer (λ run. run.disk < H.count_of shelf.old)) answers.now }
    ensures ok { OnOk result ((totals : ℕ → List Entry) →
        HaveResults (files_on H.disk_of D.files shelf.old) plan.now totals answers.now → wide_of plan.now totals ≡ None) }
    ensures ending { (totals : ℕ → List Entry) →
        HaveResults (files_on H.disk_of D.files shelf.old) plan.now totals answers.now →
        IfErr result (MayEndAs (ending_of_totals plan.now totals)) }
    ensures of_sums { IfErr result IsOfSums }
    ensures disk { IfErr result (λ ended. IsDiskFault ended (λ post.
        Rose (faults_on H.disk_of D.faults shelf.old post) (faults_on H.disk_of D.faults shelf.new post))) }
    ensures damaged { IfErr result (λ ended. IsDamaged ended (λ kept found. found < kept)) }
    ensures named { (count : ℕ) → All (λ answer. IfSome answer (λ run. run.disk < count)) answers.now →
        IfErr result (λ ended. IsDamagedOn ended (λ post. post < count)) }
    ensures shelf { LeavesFiles H.count_of H.named H.disk_of D.files D.faults shelf.old shelf.new }
{
    for query in 0..plan.query_count() {
        check_query(alloc, shelf, plan, query, answers[query as usize].as_ref())?;
    }
    Ok(())
}
