//! What a process works with in the folder `spill/`: the disks of its posts, and that of its copies.

ghost use Rattle.std.specs.Prelude.{◌≡◌, All, IfOk, length, map};
ghost use Rattle.task_runner.specs.Consumers.{HasConsumers};
ghost use Rattle.csv_program.specs.QueryConsumers.{state_in};

use crate::consumers::{QueryConsumer, make_consumers};
use spill_disk::FolderDisk;
use spill_folder::{SpillFault, SpillFolder, take_folder};
use std::alloc::{AllocError, Global};
use std::fs::File;
use std::rt::Files;
use task_runner::Post;

/// How many posts there are: the most workers.
pub const POSTS: usize = 16;

// The disk of a folder in the folder. Nothing is made yet.
fn disk_in<R: Files + AllocGlobal + Clone + Drop>(
    rt: &R,
    folder: String,
) -> Result<FolderDisk<R>, AllocError> {
    Ok(FolderDisk::new(rt.clone()?, rt.alloc(), folder))
}

// A post with this disk.
fn make_post<R: Files + Drop>(
    alloc: Global,
    disk: FolderDisk<R>,
) -> Result<Post<FolderDisk<R>, QueryConsumer>, AllocError>
    ensures { IfOk result (λ post. HasConsumers (map state_in post.consumers.items)) }
{
    Ok(Post {
        disk,
        consumers: make_consumers(alloc)?,
    })
}

// Sixteen posts with disks in `spill/post0` to `spill/post15`. No file is made yet.
fn make_posts<R: Files + AllocGlobal + Clone + Drop>(
    rt: &R,
) -> Result<Vec<Post<FolderDisk<R>, QueryConsumer>>, AllocError>
    ensures count { IfOk result (λ posts. length posts.items ≡ 16) }
    ensures consumers { IfOk result (λ posts. All (λ post. HasConsumers (map state_in post.consumers.items)) posts.items) }
{
    let mut posts = Vec::new(rt.alloc());
    for place in 0..POSTS {
        let folder = format!(in rt.alloc(); "spill/post{place}")?;
        posts.push(make_post(rt.alloc(), disk_in(rt, folder)?)?)?;
    }
    Ok(posts)
}

/// Sixteen posts with disks in the folder, and a disk for copies of cached blocks. The folder is made or cleared, and is this
/// process' own until the last part of the answer is dropped.
pub fn prepare<R: Files<File = File> + AllocGlobal + Clone + Drop>(
    rt: &R,
) -> Result<
    (
        Vec<Post<FolderDisk<R>, QueryConsumer>>,
        FolderDisk<R>,
        SpillFolder,
    ),
    SpillFault,
>
    ensures count { IfOk result (λ made. length made.0.items ≡ 16) }
    ensures folder { IfOk result (λ made. made.2.posts ≡ length made.0.items) }
    ensures consumers { IfOk result (λ made. All (λ post. HasConsumers (map state_in post.consumers.items)) made.0.items) }
{
    let folder = take_folder(rt, POSTS)?;
    let posts = make_posts(rt)?;
    let store = disk_in(rt, String::from_str(rt.alloc(), "spill/store")?)?;
    Ok((posts, store, folder))
}
