//! The tables of a run's queries.

ghost use Rattle.std.specs.Prelude.{◌≡◌, ◌≤◌, ◌<◌, ◌-◌, ◌^◌, ℕ, All, List, None, IfErr, IfSome, OnErr, OnOk, is_some, length, map, option_map};
ghost use Rattle.std.specs.Io.KnownBytes.{Appends, Keeps};
ghost use Rattle.aggregate.specs.Totals.{Entry};
ghost use Rattle.byte_io.specs.Sinks.{AppendsPrefix};
ghost use Rattle.fault_count.specs.Faults.{Rose};
ghost use Rattle.job_plan.specs.Plans.{kept_at, kept_in, kind_at};
ghost use Rattle.journal_audit.specs.Text.{text_of};
ghost use Rattle.job_plan.specs.Telling.{IsTold};
ghost use Rattle.result_table.specs.Results.{HasResult};
ghost use Rattle.run_file.specs.Shelved.{LeavesFiles, faults_on, files_on};
ghost use Rattle.job_ending.specs.Endings.{CanBeTold, MayEndAs, ending_of_totals, printed_in, tables_of};
ghost use Rattle.csv_program.specs.Posts.{IsDiskOf, post_faults, post_files};
ghost use Rattle.csv_program.specs.QueryResults.{HaveResults};
ghost use Rattle.csv_program.specs.Tables.{gap_before, piece_of};
ghost use Rattle.job_ending.specs.Written.{GainsIfAsked};
ghost use Rattle.job_ending.specs.Statuses.{IsCut, IsDamaged, IsDamagedOn, IsDiskFault, IsNoRoom, IsOfTables, IsOfTasks, IsOutside, WritesNothing};

use crate::record::{Record, write_journal};
use crate::sums::check_sums;
use byte_io::{Sink, SinkError, write_all_counted};
use consumer_trait::Consumer;
use job_ending::Status;
use job_plan::Plan;
use result_table::print_table;
use run_file::Run;
use spill_disk::{Disk, Shelf};
use std::alloc::Global;
use task_runner::{Post, swap_consumers, take_consumers};

// Writes the line feed that stands before each table but the first.
fn write_gap<W: Sink>(query: u32, output: &mut W) -> Result<(), Status>
    ensures ok { OnOk result (Appends (W.written output.old) (W.written output.new) (gap_before query)) }
    ensures err { OnErr result (AppendsPrefix (W.written output.old) (W.written output.new) (gap_before query)) }
    ensures outside { IfErr result IsOutside }
    ensures of_tables { IfErr result IsOfTables }
    ensures write { IfErr result (λ ended. ended ≡ Status.WriteFault → Rose (W.faults output.old) (W.faults output.new)) }
    ensures disk { IfErr result (λ ended. IsDiskFault ended (λ post. ⊥)) }
    ensures damaged { IfErr result (λ ended. IsDamaged ended (λ kept found. ⊥)) }
    ensures tells { is_some (W.written output.new) ≡ is_some (W.written output.old) }
    ensures later { W.faults output.old ≤ W.faults output.new }
{
    if query == 0 {
        return Ok(());
    }
    match write_all_counted(output, b"\n") {
        Ok(()) => Ok(()),
        Err(SinkError::Failed) => Err(Status::WriteFault),
        Err(SinkError::NoMemory) => Err(Status::NoMemory),
    }
}

// Prints the table of a query, behind a line feed where it isn't the first.
fn print_query<D: Disk, H: Shelf<D>, W: Sink>(
    alloc: Global,
    shelf: &mut H,
    plan: &Plan,
    query: u32,
    answer: Option<&Run>,
    output: &mut W,
) -> Result<(), Status>
    requires query { query < length (kept_in plan.now) }
    requires there { IfSome (option_map (λ run. run.now) answer) (λ run. run.disk < H.count_of shelf.old) }
    ensures ok { OnOk result ((entries : List Entry) →
        HasResult (files_on H.disk_of D.files shelf.old) (kind_at plan.now query) (option_map (λ run. run.now) answer.entry) entries →
        Appends (W.written output.old) (W.written output.new) (piece_of plan.now query entries)) }
    ensures err { OnErr result ((entries : List Entry) →
        HasResult (files_on H.disk_of D.files shelf.old) (kind_at plan.now query) (option_map (λ run. run.now) answer.entry) entries →
        AppendsPrefix (W.written output.old) (W.written output.new) (piece_of plan.now query entries)) }
    ensures outside { (entries : List Entry) →
        HasResult (files_on H.disk_of D.files shelf.old) (kind_at plan.now query) (option_map (λ run. run.now) answer.entry) entries →
        All (IsTold (kept_at plan.now query)) entries → IfErr result IsOutside }
    ensures of_tables { IfErr result IsOfTables }
    ensures write { IfErr result (λ ended. ended ≡ Status.WriteFault → Rose (W.faults output.old) (W.faults output.new)) }
    ensures disk { IfErr result (λ ended. IsDiskFault ended (λ post.
        Rose (faults_on H.disk_of D.faults shelf.old post) (faults_on H.disk_of D.faults shelf.new post))) }
    ensures damaged { IfErr result (λ ended. IsDamaged ended (λ kept found. found < kept)) }
    ensures named { IfErr result (λ ended. IsDamagedOn ended (IsDiskOf (option_map (λ run. run.now) answer.entry))) }
    ensures tells { is_some (W.written output.new) ≡ is_some (W.written output.old) }
    ensures later { W.faults output.old ≤ W.faults output.new }
    ensures shelf { LeavesFiles H.count_of H.named H.disk_of D.files D.faults shelf.old shelf.new }
{
    write_gap(query, output)?;
    match print_table(alloc, shelf, answer, plan, query, output) {
        Ok(()) => Ok(()),
        Err(fault) => Err(Status::from(fault)),
    }
}

// Prints the tables of all queries, in their order.
fn print_tables<D: Disk, H: Shelf<D>, W: Sink>(
    alloc: Global,
    shelf: &mut H,
    plan: &Plan,
    answers: &[Option<Run>],
    output: &mut W,
) -> Result<(), Status>
    requires all { length answers.now ≡ length (kept_in plan.now) }
    requires there { All (λ answer. IfSome answer (λ run. run.disk < H.count_of shelf.old)) answers.now }
    ensures ok { OnOk result ((totals : ℕ → List Entry) →
        HaveResults (files_on H.disk_of D.files shelf.old) plan.now totals answers.now →
        Appends (W.written output.old) (W.written output.new) (tables_of plan.now totals)) }
    ensures err { OnErr result ((totals : ℕ → List Entry) →
        HaveResults (files_on H.disk_of D.files shelf.old) plan.now totals answers.now →
        AppendsPrefix (W.written output.old) (W.written output.new) (tables_of plan.now totals)) }
    ensures outside { (totals : ℕ → List Entry) →
        HaveResults (files_on H.disk_of D.files shelf.old) plan.now totals answers.now →
        ((query : ℕ) → query < length (kept_in plan.now) → All (IsTold (kept_at plan.now query)) (totals query)) →
        IfErr result IsOutside }
    ensures of_tables { IfErr result IsOfTables }
    ensures write { IfErr result (λ ended. ended ≡ Status.WriteFault → Rose (W.faults output.old) (W.faults output.new)) }
    ensures disk { IfErr result (λ ended. IsDiskFault ended (λ post.
        Rose (faults_on H.disk_of D.faults shelf.old post) (faults_on H.disk_of D.faults shelf.new post))) }
    ensures damaged { IfErr result (λ ended. IsDamaged ended (λ kept found. found < kept)) }
    ensures named { (count : ℕ) → All (λ answer. IfSome answer (λ run. run.disk < count)) answers.now →
        IfErr result (λ ended. IsDamagedOn ended (λ post. post < count)) }
    ensures shelf { LeavesFiles H.count_of H.named H.disk_of D.files D.faults shelf.old shelf.new }
{
    for query in 0..plan.query_count() {
        let answer = answers[query as usize].as_ref();
        print_query(alloc, shelf, plan, query, answer, output)?;
    }
    Ok(())
}

// Checks the sums of the results, and where none is too wide writes the journal, if it is asked for, and prints the tables.
fn check_and_print<D: Disk, H: Shelf<D>, J: Sink, W: Sink>(
    alloc: Global,
    shelf: &mut H,
    plan: &Plan,
    answers: &[Option<Run>],
    kept: &Record<'_>,
    journal: &mut J,
    output: &mut W,
) -> Status
    requires all { length answers.now ≡ length (kept_in plan.now) }
    requires there { All (λ answer. IfSome answer (λ run. run.disk < H.count_of shelf.old)) answers.now }
    ensures ending { (totals : ℕ → List Entry) →
        HaveResults (files_on H.disk_of D.files shelf.old) plan.now totals answers.now → CanBeTold plan.now totals →
        MayEndAs (ending_of_totals plan.now totals) result }
    ensures done { (totals : ℕ → List Entry) →
        HaveResults (files_on H.disk_of D.files shelf.old) plan.now totals answers.now → result ≡ Status.Done →
        Appends (W.written output.old) (W.written output.new) (printed_in (ending_of_totals plan.now totals)) }
    ensures prefix { (totals : ℕ → List Entry) →
        HaveResults (files_on H.disk_of D.files shelf.old) plan.now totals answers.now → IsCut result →
        AppendsPrefix (W.written output.old) (W.written output.new) (printed_in (ending_of_totals plan.now totals)) }
    ensures nothing { WritesNothing result → Keeps (W.written output.old) (W.written output.new) }
    ensures gains { GainsIfAsked kept.now.asked result (text_of kept.now.setup kept.now.journal.now)
        (J.written journal.old)
        (J.written journal.new) }
    ensures write { result ≡ Status.WriteFault → Rose (W.faults output.old) (W.faults output.new) }
    ensures recorded { result ≡ Status.JournalFault → Rose (J.faults journal.old) (J.faults journal.new) }
    ensures disk { IsDiskFault result (λ post. Rose (faults_on H.disk_of D.faults shelf.old post) (faults_on H.disk_of D.faults shelf.new post)) }
    ensures damaged { IsDamaged result (λ kept found. found < kept) }
    ensures named { (count : ℕ) → All (λ answer. IfSome answer (λ run. run.disk < count)) answers.now →
        IsDamagedOn result (λ post. post < count) }
    ensures no_room { IsNoRoom result (λ asked held floor. ⊥) }
    ensures of_tasks { IsOfTasks result }
    ensures shelf { LeavesFiles H.count_of H.named H.disk_of D.files D.faults shelf.old shelf.new }
{
    match check_sums(alloc, shelf, plan, answers) {
        Ok(()) => match write_journal(alloc, kept, journal) {
            Ok(()) => match print_tables(alloc, shelf, plan, answers, output) {
                Ok(()) => Status::Done,
                Err(ended) => ended,
            },
            Err(ended) => ended,
        },
        Err(ended) => ended,
    }
}

/// Checks the sums of the queries' results on the disks of posts, writes the pool's journal, if it is asked for, and prints the
/// tables, with a line feed between two. Nothing is written before all sums are checked, and no table before the journal.
pub fn print_answers<D: Disk, C: Consumer, J: Sink, W: Sink>(
    alloc: Global,
    posts: &mut Vec<Post<D, C>>,
    plan: &Plan,
    answers: &[Option<Run>],
    kept: &Record<'_>,
    journal: &mut J,
    output: &mut W,
) -> Status
    requires all { length answers.now ≡ length (kept_in plan.now) }
    requires there { All (λ answer. IfSome answer (λ run. run.disk < length posts.old.items)) answers.now }
    requires few_posts { length posts.old.items < 2 ^ 32 - 1 }
    ensures ending { (totals : ℕ → List Entry) →
        HaveResults (post_files D.files posts.old) plan.now totals answers.now → CanBeTold plan.now totals →
        MayEndAs (ending_of_totals plan.now totals) result }
    ensures done { (totals : ℕ → List Entry) →
        HaveResults (post_files D.files posts.old) plan.now totals answers.now → result ≡ Status.Done →
        Appends (W.written output.old) (W.written output.new) (printed_in (ending_of_totals plan.now totals)) }
    ensures prefix { (totals : ℕ → List Entry) →
        HaveResults (post_files D.files posts.old) plan.now totals answers.now → IsCut result →
        AppendsPrefix (W.written output.old) (W.written output.new) (printed_in (ending_of_totals plan.now totals)) }
    ensures nothing { WritesNothing result → Keeps (W.written output.old) (W.written output.new) }
    ensures gains { GainsIfAsked kept.now.asked result (text_of kept.now.setup kept.now.journal.now)
        (J.written journal.old)
        (J.written journal.new) }
    ensures write { result ≡ Status.WriteFault → Rose (W.faults output.old) (W.faults output.new) }
    ensures recorded { result ≡ Status.JournalFault → Rose (J.faults journal.old) (J.faults journal.new) }
    ensures disk { IsDiskFault result (λ post. Rose (post_faults D.faults posts.old post) (post_faults D.faults posts.new post)) }
    ensures damaged { IsDamaged result (λ kept found. found < kept) }
    ensures named { (count : ℕ) → All (λ answer. IfSome answer (λ run. run.disk < count)) answers.now →
        IsDamagedOn result (λ post. post < count) }
    ensures no_room { IsNoRoom result (λ asked held floor. ⊥) }
    ensures of_tasks { IsOfTasks result }
    ensures consumers { map (λ post. post.consumers) posts.new.items ≡ map (λ post. post.consumers) posts.old.items }
    ensures files { (place : ℕ) → post_files D.files posts.new place ≡ post_files D.files posts.old place }
    ensures later { (place : ℕ) → post_faults D.faults posts.old place ≤ post_faults D.faults posts.new place }
{
    let Ok(mut aside) = take_consumers(alloc, posts) else {
        return Status::NoMemory;
    };
    let status = check_and_print(alloc, posts, plan, answers, kept, journal, output);
    swap_consumers(posts, &mut aside);
    status
}
