// Several numbers in groups of seven bits, one after the other.
ghost use Rattle.std.specs.Prelude.{◌≡◌, [], ◌+◌, ◌*◌, ◌≤◌, length};
ghost use Rattle.std.proofs.lemmas.List.Edits.{sets};
ghost use Rattle.numbers_format.specs.Numbers.{encode_all};

use numbers_coded::{number_size, put_number};

// How many bytes the numbers take.
pub fn numbers_size(numbers: &[u64]) -> usize
    requires { length numbers.now ≤ 1000 }
    ensures { (result ≡ length (encode_all numbers.now [])) × (result ≤ 10 * length numbers.now) }
{
    let mut size: usize = 0;
    for n in numbers {
        size += number_size(*n);
    }
    size
}

// Puts the bytes of the numbers into the room, from a place on, and gives the place behind them.
pub fn put_numbers(room: &mut [u8], start: usize, numbers: &[u64]) -> usize
    requires numbers_len_bound { length numbers.now ≤ 1000 }
    requires numbers_in_bounds { start + length (encode_all numbers.now []) ≤ length room.old }
    ensures value { result ≡ start + length (encode_all numbers.now []) }
    ensures room_after { room.new ≡ sets room.old start (encode_all numbers.now []) }
{
    let mut at = start;
    for n in numbers {
        at = put_number(room, at, *n);
    }
    at
}
