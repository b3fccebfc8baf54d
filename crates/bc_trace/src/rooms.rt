//! Text that is put after another, in room that was taken before: no memory is taken, so nothing can be refused.
ghost use Rattle.std.specs.Prelude.{◌≡◌, ◌+◌, ◌≤◌, ◌++◌, [], ◌∷◌, length, vec_capacity};
ghost use Rattle.std.specs.Fmt.{decimal};

use itoa::Buffer;

/// Puts the bytes at the end.
pub fn put(out: &mut Vec<u8>, bytes: &[u8])
    requires room { length out.old.items + length bytes.now ≤ vec_capacity out.old }
    ensures text { out.new.items ≡ out.old.items ++ bytes.now }
    ensures long { length out.new.items ≡ length out.old.items + length bytes.now }
    ensures room { vec_capacity out.new ≡ vec_capacity out.old }
{
    for byte in bytes {
        out.push_reserved(*byte);
    }
}

/// Puts the number at the end, in decimal: at most 20 bytes.
pub fn put_number(out: &mut Vec<u8>, number: u64)
    requires room { length out.old.items + 20 ≤ vec_capacity out.old }
    ensures text { out.new.items ≡ out.old.items ++ decimal number }
    ensures long { length out.new.items ≤ length out.old.items + 20 }
    ensures room { vec_capacity out.new ≡ vec_capacity out.old }
{
    let mut buffer = Buffer::new();
    put(out, buffer.format(number).as_bytes());
}

/// Puts the number at the end, in decimal: at most 10 bytes.
pub fn put_small(out: &mut Vec<u8>, number: u32)
    requires room { length out.old.items + 10 ≤ vec_capacity out.old }
    ensures text { out.new.items ≡ out.old.items ++ decimal number }
    ensures long { length out.new.items ≤ length out.old.items + 10 }
    ensures room { vec_capacity out.new ≡ vec_capacity out.old }
{
    let mut buffer = Buffer::new();
    put(out, buffer.format(number).as_bytes());
}

/// Puts a line at the end: the word, which ends with its space, and the number.
pub fn put_numbered(out: &mut Vec<u8>, word: &[u8], number: u64)
    requires room { length out.old.items + length word.now + 21 ≤ vec_capacity out.old }
    ensures text { out.new.items ≡ out.old.items ++ (word.now ++ decimal number ++ 10 ∷ []) }
    ensures long { length out.new.items ≤ length out.old.items + length word.now + 21 }
    ensures room { vec_capacity out.new ≡ vec_capacity out.old }
{
    put(out, word);
    put_number(out, number);
    put(out, b"\n");
}
