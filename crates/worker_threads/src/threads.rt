//! One thread for each place of two lists.

ghost use Rattle.std.specs.Prelude.{◌≡◌, ◌≤◌, ◌<◌, ◌+◌, ◌^◌, length};
ghost use Rattle.std.specs.Thread.{IsSync};
ghost use denote.Param.Send.{IsSend};
ghost use Rattle.worker_threads.specs.Calls.{AcceptsCall, AcceptsCalls, Called, CalledAll};

use std::thread::{Threads, join_mut};

/// Calls `f` with each place of the workers, counted from `base` on, and with what both lists have there, each in a thread of its
/// own, or in this one where no thread can be made. All have ended when it returns. Answers stand at their places; posts behind
/// those of the workers are left alone.
pub fn each_place<
    R: Threads + Sync,
    W: Send,
    P: Send,
    A: Send + Drop,
    F: Fn(usize, &mut W, &mut P) -> A + Sync,
>(rt: &R, f: &F, base: usize, workers: &mut [W], posts: &mut [P], answers: &mut [A])
    requires room { base + length workers.old < 2 ^ 64 }
    requires posts { length workers.old ≤ length posts.old }
    requires answers { length answers.old ≡ length workers.old }
    requires accepts { AcceptsCalls F.Fn f.now base workers.old posts.old }
    ensures { CalledAll F.Fn f.now base workers.old workers.new posts.old posts.new answers.new }
{
    let Some((worker, workers)) = workers.split_first_mut() else {
        return;
    };
    let Some((post, posts)) = posts.split_first_mut() else {
        return;
    };
    let Some((answer, answers)) = answers.split_first_mut() else {
        return;
    };
    let next = base + 1;
    join_mut(
        rt,
        &mut ||
            requires { AcceptsCall F.Fn f.now base worker.now post.now }
            ensures { Called F.Fn f.entry.now base worker.entry.now worker.exit.now post.entry.now post.exit.now answer.exit.now }
        { one_place(f, base, worker, post, answer) },
        &mut ||
            requires { IsSync R.row × IsSync F.row × IsSend W.row × IsSend P.row × IsSend A.row × (next + length workers.now < 2 ^ 64) × (length workers.now ≤ length posts.now) × (length answers.now ≡ length workers.now) × AcceptsCalls F.Fn f.now next workers.now posts.now }
            ensures { CalledAll F.Fn f.entry.now next workers.entry.now workers.exit.now posts.entry.now posts.exit.now answers.exit.now }
        { each_place(rt, f, next, workers, posts, answers) },
    );
}

// One call, with its answer kept.
fn one_place<W, P, A: Drop, F: Fn(usize, &mut W, &mut P) -> A>(
    f: &F,
    place: usize,
    worker: &mut W,
    post: &mut P,
    answer: &mut A,
)
    requires { AcceptsCall F.Fn f.now place worker.old post.old }
    ensures { Called F.Fn f.now place worker.old worker.new post.old post.new answer.new }
{
    *answer = f(place, worker, post);
}
