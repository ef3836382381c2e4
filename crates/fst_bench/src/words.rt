use std::env::Env;

/// The number in the word of this place, 0 where there is none.
pub fn number<R: Env>(rt: &R, place: usize) -> u32 {
    let mut buffer = [0u8; 16];
    let Ok(length) = rt.arg(place, &mut buffer) else {
        return 0;
    };
    let mut number: u32 = 0;
    for byte in buffer.iter().take(length) {
        if byte.is_ascii_digit() {
            number = number
                .wrapping_mul(10)
                .wrapping_add(u32::from(byte.wrapping_sub(b'0')));
        }
    }
    number
}

/// Whether this is the word of this place.
pub fn is_word<R: Env>(rt: &R, place: usize, word: &[u8]) -> bool {
    let mut buffer = [0u8; 16];
    match rt.arg(place, &mut buffer) {
        Ok(length) => buffer.get(..length) == Some(word),
        Err(_) => false,
    }
}
