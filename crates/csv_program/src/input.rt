//! The input of a run, landed on the disks of posts.

ghost use Rattle.std.specs.Prelude.{◌≡◌, ◌≤◌, ◌<◌, ◌-◌, ◌^◌, ℕ, [], IfErr, IfOk, IfSome, IsErrOf, OnOk, is_some, length, map, option_map};
ghost use Rattle.std.specs.Io.KnownBytes.{IsAtEnd};
ghost use Rattle.byte_io.specs.Rows.{rows_of};
ghost use Rattle.fault_count.specs.Faults.{Rose};
ghost use Rattle.landing.specs.Checks.{Refused, checked};
ghost use Rattle.landing.specs.Landed.{HasCauseAmong, IsOfInput, Lands};
ghost use Rattle.landing.specs.declared.fault.LandFault.{LandFault};
ghost use Rattle.run_file.specs.Several.{KeepsAll};
ghost use Rattle.job_ending.specs.Calls.{IsRun};
ghost use Rattle.csv_program.specs.Posts.{post_faults, post_files};

use byte_io::Source;
use consumer_trait::Consumer;
use job_ending::RunCall;
use landing::{LandFault, Landed, land};
use spill_disk::Disk;
use std::alloc::Global;
use task_runner::{Post, swap_consumers, take_consumers};

/// Reads an input to its end, checks it, and writes its rows in partitions on the disks of the workers' posts.
pub fn land_on<S: Source, D: Disk, C: Consumer>(
    alloc: Global,
    asked: &RunCall,
    input: &mut S,
    posts: &mut Vec<Post<D, C>>,
) -> Result<Landed, LandFault>
    requires run { IsRun asked.now }
    requires posts { asked.now.pool.workers ≤ length posts.old.items }
    requires few_posts { length posts.old.items < 2 ^ 32 - 1 }
    ensures lands { IfOk result (λ landed. Lands (post_files D.files posts.new) asked.now.job asked.now.max_rows
        asked.now.part_rows asked.now.pool.workers landed.plan landed.parts.items landed.rows
        (option_map rows_of (S.left input.old))) }
    ensures end { OnOk result (IsAtEnd (S.left input.new)) }
    ensures refused { (why : LandFault) → IsOfInput why → IsErrOf result why → IfSome (S.left input.old) (λ bytes.
        checked asked.now.job asked.now.max_rows (rows_of bytes) ≡ Refused why) }
    ensures read { IsErrOf result LandFault.ReadFault → Rose (S.faults input.old) (S.faults input.new) }
    ensures cause { IfErr result (HasCauseAmong asked.now.pool.workers (post_faults D.faults posts.old) (post_faults D.faults posts.new)) }

    // The posts.
    ensures consumers { map (λ post. post.consumers) posts.new.items ≡ map (λ post. post.consumers) posts.old.items }
    ensures tells { (place : ℕ) → is_some (post_files D.files posts.new place) ≡ is_some (post_files D.files posts.old place) }
    ensures files { KeepsAll (post_files D.files posts.old) (post_files D.files posts.new) }
    ensures later { (place : ℕ) → post_faults D.faults posts.old place ≤ post_faults D.faults posts.new place }
{
    let Ok(mut aside) = take_consumers(alloc, posts) else {
        return Err(LandFault::NoMemory);
    };
    let workers = asked.pool.workers() as u32;
    let landed = land(
        alloc,
        input,
        &asked.job,
        asked.max_rows,
        asked.part_rows,
        workers,
        posts,
    );
    swap_consumers(posts, &mut aside);
    landed
}
