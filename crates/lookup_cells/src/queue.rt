// The states to take up at a combination, first in, first out: a mark for each of 1,024 states, a ring of 1,024 numbers
// of states, where it begins, and how many stand in it.
ghost use Rattle.std.specs.Prelude.{◌≡◌, ◌<◌, replicate};
ghost use Rattle.lookup_cells.specs.Queues.{count_of, Queue, Enqueues, Dequeues};

// No state waits.
pub fn no_states() -> [u16; 2050]
    ensures { result ≡ replicate 2050 0 }
{
    [0; 2050]
}

// A state behind the last, unless it waits.
pub fn enqueue(state: usize, queue: &mut [u16])
    requires { (state < 1024) × Queue queue.old }
    ensures { Enqueues state queue.new queue.old }
{
    if queue[state] != 0 {
        return;
    }
    let count = usize::from(queue[2049]);
    let place = (usize::from(queue[2048]) + count) % 1024;
    queue[1024 + place] = state as u16;
    queue[state] = 1;
    queue[2049] = (count + 1) as u16;
}

// The first state, which waits no more.
pub fn dequeue(queue: &mut [u16]) -> usize
    requires { Queue queue.old × (0 < count_of queue.old) }
    ensures { Dequeues result queue.new queue.old }
{
    let count = usize::from(queue[2049]);
    let begin = usize::from(queue[2048]);
    let state = usize::from(queue[1024 + begin]);
    queue[2048] = ((begin + 1) % 1024) as u16;
    queue[2049] = (count - 1) as u16;
    queue[state] = 0;
    state
}
