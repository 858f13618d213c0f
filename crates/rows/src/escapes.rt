//! Escapes, which spell bytes that a line of a text file cannot contain.
//!
//! Each function returns `false` if the text is malformed.

pub(crate) fn unescape(out: &mut Vec<u8>, text: &str) -> bool {
    let mut pieces = text.split('\\');
    add(out, pieces.next().unwrap_or(""));
    let mut is_good = true;
    for piece in pieces {
        is_good = add_escape(out, piece) && is_good;
    }
    is_good
}

fn add(out: &mut Vec<u8>, text: &str) {
    let _ = out.extend_from_slice(text.as_bytes());
}

fn add_escape(out: &mut Vec<u8>, piece: &str) -> bool {
    let (first, rest) = piece.split_at_checked(1).unwrap_or(("", ""));
    let (byte, rest) = match first {
        "s" => (b' ', rest),
        "r" => (b'\r', rest),
        "b" => (b'\\', rest),
        "x" => {
            let (digits, rest) = rest.split_at_checked(2).unwrap_or(("", ""));
            match u8::from_str_radix(digits, 16) {
                Ok(byte) => (byte, rest),
                Err(_) => return false,
            }
        }
        "{" => return add_repeated(out, rest),
        _ => return false,
    };
    let _ = out.push(byte);
    add(out, rest);
    true
}

fn add_repeated(out: &mut Vec<u8>, text: &str) -> bool {
    let (repeat, rest) = text.split_once('}').unwrap_or(("", ""));
    let (times, text) = repeat.split_once(' ').unwrap_or(("", ""));
    let Ok(times) = times.parse::<u64>() else {
        return false;
    };
    for _ in 0..times {
        add(out, text);
    }
    add(out, rest);
    true
}
