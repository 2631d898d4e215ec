// A table's file. It is a list of fields: a field is its length in two bytes, high byte first, and so many bytes. Each field of the file
// is a row, and a row is again a list of fields. A number in a field has its high byte first.
ghost use Rattle.std.specs.Prelude.{length};
ghost use Rattle.std.specs.Iterator.{at_most};

use arrayvec::ArrayVec;
use std::io::Read;
use std::rt::Files;
use std::{fs, io};

// Puts the first 65,536 bytes of a file into the table, or those before its end or before a read fails: none where there is no such file. The
// table is lent, since one that is returned is moved, and each place that it is moved to has 64 KiB of the stack.
pub fn load(rt: &impl Files, name: &str, table: &mut ArrayVec<u8, 65536>) {
    table.clear();
    if let Ok(file) = fs::open(rt, name) {
        let _ = io::copy(&mut file.take(65536), table);
    }
}

// ---- fields

// The fields of a list, one after the other. Where fewer bytes are left than a field's length says, it has those that are left.
#[derive(Drop)]
pub struct Fields<'a>(pub &'a [u8]);

impl<'a> Iterator for Fields<'a> {
    type Item = &'a [u8];

    ghost remaining = { λ s. at_most (length s.0.now) };

    fn next(&mut self) -> Option<&'a [u8]> {
        if self.0.is_empty() {
            return None;
        }
        // A single byte that is left is no length: it is an empty field.
        let (size, rest) = self.0.split_first_chunk().unwrap_or((&[0, 0], &[]));
        let n = usize::from(u16::from_be_bytes(*size)).min(rest.len());
        let (field, others) = rest.split_at(n);
        self.0 = others;
        Some(field)
    }
}

// Field k of a row, the first being field 0; empty where the row has no such field.
pub fn field(row: &[u8], k: usize) -> &[u8] {
    Fields(row).nth(k).unwrap_or_default()
}

// The first N bytes of a field, with a 0 for each that it lacks.
pub fn padded<const N: usize>(field: &[u8]) -> [u8; N] {
    let mut bytes = [0; N];
    for (to, from) in bytes.iter_mut().zip(field) {
        *to = *from;
    }
    bytes
}

// The number in a field of one byte.
pub fn byte(row: &[u8], k: usize) -> u8 {
    u8::from_be_bytes(padded(field(row, k)))
}

// The number in a field of two bytes.
pub fn short(row: &[u8], k: usize) -> u16 {
    u16::from_be_bytes(padded(field(row, k)))
}

// The number in a field of four bytes.
pub fn long(row: &[u8], k: usize) -> usize {
    u32::from_be_bytes(padded(field(row, k))) as usize
}
