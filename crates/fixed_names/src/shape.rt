//! The shape of a name in another tool, which tells a format from a file if both are allowed.

ghost use Rattle.std.specs.Prelude.{◌≡◌};
ghost use Rattle.std.specs.List.{list_all};
ghost use Rattle.fixed_names.specs.Shapes.{is_between, is_like_simulink, is_like_tool_name, is_part, is_width_first};

/// Whether a word begins with `head` and ends with `tail`.
fn is_between(word: &[u8], head: &[u8], tail: &[u8]) -> bool
    ensures { result ≡ is_between head.now tail.now word.now }
{
    word.starts_with(head) && word.ends_with(tail)
}

/// Whether a byte may follow the first digit of a Simulink name.
fn is_part(byte: u8) -> bool
    ensures { result ≡ is_part byte }
{
    byte.is_ascii_digit() || byte == b'_' || byte == b'E' || byte == b'n'
}

/// Whether all bytes may follow that digit.
fn are_parts(bytes: &[u8]) -> bool
    ensures { result ≡ list_all is_part bytes.now }
{
    bytes.iter().all(|b| is_part(*b))
}

/// Whether the bytes are a digit and bytes that may follow it.
fn is_width_first(bytes: &[u8]) -> bool
    ensures { result ≡ is_width_first bytes.now }
{
    match bytes {
        [first, rest @ ..] => first.is_ascii_digit() && are_parts(rest),
        [] => false,
    }
}

/// Whether a word has the shape of a Simulink name: `sfix` or `ufix`, a digit, and then only digits, `_`, `E`, `n`.
fn is_like_simulink(word: &[u8]) -> bool
    ensures { result ≡ is_like_simulink word.now }
{
    (word.starts_with(b"sfix") || word.starts_with(b"ufix")) && is_width_first(&word[4..])
}

/// Whether a word has the shape of a format's name in another tool, even if it names none: `ap_fixed<..>`, `sfixed(..)`
/// and their unsigned forms, `fi(..)`, `numerictype(..)`, or the shape of a Simulink name.
pub fn is_like_tool_name(word: &[u8]) -> bool
    ensures { result ≡ is_like_tool_name word.now }
{
    is_between(word, b"ap_fixed<", b">")
        || is_between(word, b"ap_ufixed<", b">")
        || is_between(word, b"sfixed(", b")")
        || is_between(word, b"ufixed(", b")")
        || is_between(word, b"fi(", b")")
        || is_between(word, b"numerictype(", b")")
        || is_like_simulink(word)
}

#[cfg(test)]
mod tests {
    use super::is_like_tool_name;

    #[test]
    fn shapes_of_names(rt: HostRuntime) {
        let names: [&[u8]; 5] = [
            b"ap_fixed<99>",
            b"ufixed(0 to 3)",
            b"fi(_,1,16,15)",
            b"numerictype(1,65,0)",
            b"sfix16_E3",
        ];
        for name in names {
            assert!(rt; is_like_tool_name(name));
        }
        let files: [&[u8]; 5] = [
            b"sfix",
            b"sfix16.txt",
            b"ap_fixed",
            b"fi(1).txt",
            b"taps_En15",
        ];
        for file in files {
            assert!(rt; !is_like_tool_name(file));
        }
    }
}
