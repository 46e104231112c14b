// A first-in first-out queue of at most 32 numbers, document 01's "line". Its places are a ring, found by a comparison with its end and a
// subtraction (`wrapped`), where document 01 has a remainder of 32.
// Every value of the struct stands for a list (`contents`), so no function here asks anything of its caller.
#![tactic(auto)]

ghost use Rattle.std.specs.Prelude.{◌≡◌, [], ◌-◌, ◌%◌, ◌<◌, min, length};
ghost use Rattle.queue.specs.Contents.{capacity, contents, ascending_from, Dequeues, Enqueues};

// The number of places.
const CAPACITY: u8 = 32;

// The places of a queue whose numbers ascend: written out, since a constant cannot run `array::from_fn`.
const ASCENDING: [u8; 32] = [
    0, 1, 2, 3, 4, 5, 6, 7, 8, 9, 10, 11, 12, 13, 14, 15, 16, 17, 18, 19, 20, 21, 22, 23, 24, 25,
    26, 27, 28, 29, 30, 31,
];

// A number's place on the ring. A head may be any byte, hence a loop; in a queue that began with `new` or `ascending` one turn is the most.
// Kept: no remainder may stand here, and other shapes than this loop took 6 to 9 % more instructions (docs/DECISIONS.md).
fn wrapped(i: u8) -> u8
    ensures { result ≡ i % capacity }
{
    let mut place = i;
    while CAPACITY <= place {
        place -= CAPACITY;
    }
    place
}

// Its fields are public, since every value of them is a queue: the machine's tables hold them as bytes.
// Kept: document 01 asks for an array, a head and a length, with methods by value, and there is no heap for a queue of std.
#[derive(Clone, Copy)]
pub struct Queue {
    pub places: [u8; 32],
    pub head: u8,
    pub len: u8,
}

impl Queue {
    // The empty queue.
    #[tactic(auto, unfolding(crate::specs::Contents::contents, crate::specs::Contents::ring))]
    pub fn new() -> Queue
        ensures { contents result ≡ [] }
    {
        Queue {
            places: [0u8; 32],
            head: 0,
            len: 0,
        }
    }

    // The queue of the numbers from 0 up to n, n left out; of 0 to 31 where n is above 32.
    #[tactic(auto, using(crate::proofs::Filled::ascending_first))]
    pub fn ascending(n: u8) -> Queue
        ensures { contents result ≡ ascending_from 0 (min n capacity) }
    {
        Queue {
            places: ASCENDING,
            head: 0,
            len: n.min(CAPACITY),
        }
    }

    // How many numbers stand in the queue.
    #[tactic(auto, using(crate::proofs::Filled::length_is))]
    pub fn len(self) -> u8
        ensures { result ≡ length (contents self) }
    {
        self.len
    }

    // Hands out the number at the head, with the queue shorter by one. An empty queue hands out nothing and comes back unchanged.
    #[tactic(auto, unfolding(crate::specs::Contents::contents, crate::specs::Contents::ring), using(crate::proofs::Filled::one_taken))]
    pub fn dequeue(mut self) -> (Option<u8>, Queue)
        ensures { Dequeues self result }
    {
        if self.len == 0 {
            return (None, self);
        }
        let head = wrapped(self.head);
        let number = self.places[head as usize];
        self.head = wrapped(head + 1);
        self.len -= 1;
        (Some(number), self)
    }

    // The queue with n at its tail. A full queue takes nothing and comes back unchanged.
    #[tactic(auto, using(crate::proofs::Filled::full_stays))]
    pub fn enqueue(mut self, n: u8) -> Queue
        ensures { Enqueues self n result }
    {
        if CAPACITY <= self.len {
            return self;
        }
        let head = wrapped(self.head);
        let tail = wrapped(head + self.len);
        self.places[tail as usize] = n;
        self.len += 1;
        self
    }
}
