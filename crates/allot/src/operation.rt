// What a line says: a letter, and for each of its numbers a space and digits.
use workspace::{Stretch, Used};

#[derive(Clone, Copy)]
pub enum Operation {
    Fresh,
    Request(u32),
    Release(u32),
    Block(usize, Stretch),
    Free(usize, Stretch),
    Used(Used),
}

// A number has digits alone, and 32 bits; text that `parse` reads may have a sign.
fn number(word: &[u8]) -> Option<u32> {
    if word.is_empty() {
        return None;
    }
    let mut n: u32 = 0;
    for &c in word {
        if !c.is_ascii_digit() {
            return None;
        }
        n = n.checked_mul(10)?.checked_add(u32::from(c - b'0'))?;
    }
    Some(n)
}

// What a letter says with its numbers.
fn operation_of(letter: u8, numbers: &[u32]) -> Option<Operation> {
    match (letter, numbers) {
        (b'f', []) => Some(Operation::Fresh),
        (b'a', [size]) => Some(Operation::Request(*size)),
        (b'r', [start]) => Some(Operation::Release(*start)),
        (b'b', [place, start, length]) => Some(Operation::Block(
            *place as usize,
            Stretch {
                start: *start,
                length: *length,
            },
        )),
        (b'e', [place, start, length]) => Some(Operation::Free(
            *place as usize,
            Stretch {
                start: *start,
                length: *length,
            },
        )),
        (b'u', [blocks, free]) => Some(Operation::Used(Used {
            blocks: *blocks as usize,
            free: *free as usize,
        })),
        _ => None,
    }
}

// What a line says; None where it is no operation.
pub(crate) fn read_operation(line: &[u8]) -> Option<Operation> {
    let mut words = line.split(|c| *c == b' ');
    let [letter] = words.next()? else {
        return None;
    };
    let mut numbers = [0u32; 3];
    let mut many = 0;
    for word in words {
        *numbers.get_mut(many)? = number(word)?;
        many += 1;
    }
    operation_of(*letter, &numbers[..many])
}
