// Looking a task up by its priority.
ghost use Rattle.std.specs.Prelude.{◌≡◌};
ghost use Rattle.model.specs.Lookup.{rank as place, Finds};

use crate::kinds::Task;

// The place of the first task whose priority is not smaller, or past the last.
pub(crate) fn rank(tasks: &[Task], priority: u32) -> usize
    ensures { result ≡ place priority tasks.now }
{
    tasks
        .iter()
        .take_while(|task| task.priority < priority)
        .count()
}

// The place of a priority; nothing behind the first number that is not smaller is read.
// No binary search: it would ask for a list in order, and the promise covers any.
pub fn find(tasks: &[Task], priority: u32) -> Option<usize>
    ensures { Finds tasks.now priority result }
{
    let at = rank(tasks, priority);
    let task = tasks.get(at)?;
    (task.priority == priority).then_some(at)
}
