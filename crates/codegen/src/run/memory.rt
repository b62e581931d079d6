//! Memory: little-endian numbers in its bytes.

ghost use Rattle.std.specs.Prelude.{◌≡◌, ◌<◌, ◌≤◌, ◌+◌, ◌^◌, true, vec_len};
ghost use Rattle.codegen_operation.specs.Numbers.{count_of, four_at, is_within, number_at, pair_at, with_byte, with_four, with_number, with_pair};

use codegen_operation::Bytes;

/// How many bytes an access reads or writes.
fn count_of(bytes: Bytes) -> u64
    ensures value { result ≡ count_of bytes }
    ensures small { result ≤ 8 }
{
    match bytes {
        Bytes::One => 1,
        Bytes::Two => 2,
        Bytes::Four => 4,
        Bytes::Eight => 8,
    }
}

/// Whether all bytes of an access lie in memory.
pub fn is_within(memory: &Vec<u8>, bytes: Bytes, address: u64) -> bool
    ensures value { result ≡ is_within memory.now.items bytes address }
    ensures within { result ≡ true → address + count_of bytes ≤ vec_len memory.now }
{
    let (count, size) = (count_of(bytes), memory.len() as u64);
    count <= size && address <= size - count
}

/// The number in two bytes.
fn pair_at(memory: &Vec<u8>, address: usize) -> u64
    requires { address + 2 ≤ vec_len memory.now }
    ensures value { result ≡ pair_at memory.now.items address }
    ensures small { result < 2 ^ 16 }
{
    u64::from(memory[address]) + 256 * u64::from(memory[address + 1])
}

/// The number in four bytes.
fn four_at(memory: &Vec<u8>, address: usize) -> u64
    requires { address + 4 ≤ vec_len memory.now }
    ensures value { result ≡ four_at memory.now.items address }
    ensures small { result < 2 ^ 32 }
{
    pair_at(memory, address) + 65_536 * pair_at(memory, address + 2)
}

/// The number that an access reads; its upper bits are 0.
pub fn number_at(memory: &Vec<u8>, bytes: Bytes, address: usize) -> u64
    requires { address + count_of bytes ≤ vec_len memory.now }
    ensures { result ≡ number_at bytes memory.now.items address }
{
    match bytes {
        Bytes::One => u64::from(memory[address]),
        Bytes::Two => pair_at(memory, address),
        Bytes::Four => four_at(memory, address),
        Bytes::Eight => four_at(memory, address) + 4_294_967_296 * four_at(memory, address + 4),
    }
}

/// Writes the lowest byte of a number.
fn put_byte(memory: &mut Vec<u8>, address: usize, number: u64)
    requires { address < vec_len memory.old }
    ensures value { memory.new.items ≡ with_byte memory.old.items address number }
    ensures long { vec_len memory.new ≡ vec_len memory.old }
{
    memory[address] = (number % 256) as u8;
}

/// Writes the lowest two bytes of a number.
fn put_pair(memory: &mut Vec<u8>, address: usize, number: u64)
    requires { address + 2 ≤ vec_len memory.old }
    ensures value { memory.new.items ≡ with_pair memory.old.items address number }
    ensures long { vec_len memory.new ≡ vec_len memory.old }
{
    put_byte(memory, address, number);
    put_byte(memory, address + 1, number / 256);
}

/// Writes the lowest four bytes of a number.
fn put_four(memory: &mut Vec<u8>, address: usize, number: u64)
    requires { address + 4 ≤ vec_len memory.old }
    ensures value { memory.new.items ≡ with_four memory.old.items address number }
    ensures long { vec_len memory.new ≡ vec_len memory.old }
{
    put_pair(memory, address, number);
    put_pair(memory, address + 2, number / 65_536);
}

/// Writes the lower bytes of a number.
pub fn put_number(memory: &mut Vec<u8>, bytes: Bytes, address: usize, number: u64)
    requires { address + count_of bytes ≤ vec_len memory.old }
    ensures { memory.new.items ≡ with_number bytes memory.old.items address number }
{
    match bytes {
        Bytes::One => put_byte(memory, address, number),
        Bytes::Two => put_pair(memory, address, number),
        Bytes::Four => put_four(memory, address, number),
        Bytes::Eight => {
            put_four(memory, address, number);
            put_four(memory, address + 4, number / 4_294_967_296);
        }
    }
}
