// Reads and writes of work areas: total ones, where past the end there is another word and nothing is written; and those of a place that is known to be
// there, which test nothing.
#![tactic(auto)]

ghost use Rattle.std.specs.Prelude.{◌≡◌, ◌<◌, length, get_or, set};

pub fn at_or<T: Copy>(area: &[T], i: usize, past: T) -> T
    ensures { result ≡ get_or area.now i past }
{
    if i < area.len() { area[i] } else { past }
}

pub fn put<T: Copy>(area: &mut [T], i: usize, x: T)
    ensures { area.new ≡ set area.old i x }
{
    if i < area.len() {
        area[i] = x;
    }
}

pub fn read_at(numbers: &[u16], i: usize) -> u16
    requires { i < length numbers.now }
    ensures { result ≡ get_or numbers.now i 0 }
{
    numbers[i]
}

pub fn write_at(numbers: &mut [u16], i: usize, x: u16)
    requires { i < length numbers.old }
    ensures { numbers.new ≡ set numbers.old i x }
{
    numbers[i] = x;
}
