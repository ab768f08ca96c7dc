//! Laws of scenes.

ghost use Rattle.task_pool.specs.Pools.{IsAtWork};
ghost use Rattle.task_memory.specs.Scenes.{GoesOn, Scene};

/// No call is a way to go on, and so are two calls. It does nothing when run.
pub fn scenes_go_on()
    ensures none { (scene : Scene) → IsAtWork scene.pool → GoesOn scene scene }
    ensures more { (first then last : Scene) → GoesOn first then → GoesOn then last → GoesOn first last }
{
    // For the proof: no call is a way to go on, and so are two calls.
    task_pool::pools_go_on();
}
