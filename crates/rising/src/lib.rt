// Numbers in strictly rising order at the front of a lent slice: where one stands, and one put among them. Who lends the slice keeps
// the count beside it: the two calls promise what they do of every slice and every count, as docs/PROMISES.md says.
#![tactic(auto)]

ghost use Rattle.std.specs.Prelude.{◌≡◌, ◌+◌, ◌≤◌, ◌<◌, length, take};
ghost use Rattle.rising.specs.Rising.{CountsBelow, Puts, with_at};

// How many of the first `count` numbers, which rise, are below a number: where it stands among them, or would stand.
pub fn below(numbers: &[u64], count: usize, number: u64) -> usize
    ensures within { result ≤ count }
    ensures below { CountsBelow numbers.now count number result }
{
    let front = &numbers[..count.min(numbers.len())];
    front.partition_point(|standing| *standing < number)
}

// Puts a number at a place among the first `count`, and moves those from there on up by one.
fn put_at(numbers: &mut [u64], count: usize, place: usize, number: u64)
    requires { (place ≤ count) × (count < length numbers.old) }
    ensures { take (count + 1) numbers.new ≡ with_at (take count numbers.old) place number }
{
    numbers.copy_within(place..count, place + 1);
    numbers[place] = number;
}

// Puts a number among the first `count`, which rise, unless it stands there or no room is left, and tells how many they are then.
pub fn put(numbers: &mut [u64], count: usize, number: u64) -> usize
    ensures within { result ≤ count + 1 }
    ensures kept { length numbers.new ≡ length numbers.old }
    ensures puts { Puts numbers.old numbers.new count number result }
{
    if numbers.len() <= count {
        return count;
    }
    let place = below(numbers, count, number);
    if place < count && numbers[place] == number {
        return count;
    }
    put_at(numbers, count, place, number);
    count + 1
}
