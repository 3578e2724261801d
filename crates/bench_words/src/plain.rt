//! What the kernels answer, found a byte at a time.

pub fn next_special(bytes: &[u8]) -> usize {
    for (at, byte) in bytes.iter().enumerate() {
        if matches!(
            *byte,
            9..=13 | b' ' | b';' | b'"' | b'{' | b'}' | b'[' | b']' | b'$' | b'\\'
        ) {
            return at;
        }
    }
    bytes.len()
}

pub fn blank_run(bytes: &[u8]) -> usize {
    for (at, byte) in bytes.iter().enumerate() {
        if !matches!(*byte, 9 | 11..=13 | b' ') {
            return at;
        }
    }
    bytes.len()
}

pub fn count_newlines(bytes: &[u8]) -> usize {
    bytes.iter().filter(|b| **b == b'\n').count()
}

pub fn count_chars(bytes: &[u8]) -> usize {
    match bytes.split_first() {
        None => 0,
        Some((_, rest)) => 1 + rest.iter().filter(|b| !matches!(**b, 0x80..=0xBF)).count(),
    }
}
