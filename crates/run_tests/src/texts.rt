//! The text in place: each call once, and a prefix at the end of the array; and the first line of a text in memory.

use line_engine::first_line;
use text_buffer::TextBuffer;

#[test]
fn each_call_appends_what_it_is_given(rt: HostRuntime) {
    let mut text: TextBuffer<20> = TextBuffer::new();
    assert!(rt; text.is_empty());
    text.push_if(b'+', false);
    text.push_if(b'-', true);
    text.push_bytes(b"12");
    text.push_prefix(*b"3456789012345678", 3);
    assert!(rt; text.as_bytes() == b"-12345".as_slice());
    assert_eq!(rt; text.len(), 6);
    assert_eq!(rt; text.room(), 14);
}

#[test]
fn a_prefix_fits_exactly_at_the_end(rt: HostRuntime) {
    let mut text: TextBuffer<4> = TextBuffer::new();
    text.push(b'a');
    text.push_prefix(*b"bcdefghijklmnopq", 3);
    assert!(rt; text.as_bytes() == b"abcd".as_slice());
    assert_eq!(rt; text.room(), 0);
}

#[test]
fn what_is_cleared_or_cut_back_is_written_again(rt: HostRuntime) {
    let mut text: TextBuffer<8> = TextBuffer::new();
    text.push_bytes(b"abcdef");
    text.truncate(7);
    text.truncate(2);
    text.push(b'z');
    assert!(rt; text.as_bytes() == b"abz".as_slice());
    text.clear();
    assert!(rt; text.is_empty());
    text.push(b'y');
    assert!(rt; text.as_bytes() == b"y".as_slice());
}

#[test]
fn a_line_ends_at_the_first_newline_or_with_the_text(rt: HostRuntime) {
    let all = "a line of many bytes, and no other";
    let rows = [
        ("a\nb\n", "a", "b\n"),
        ("\n\nb", "", "\nb"),
        ("\n", "", ""),
        (all, all, ""),
    ];
    for (text, line, rest) in &rows {
        if !text.is_empty() {
            let (first, after) = first_line(text.as_bytes());
            assert!(rt; first == line.as_bytes(), "the line of {text}");
            assert!(rt; after == rest.as_bytes(), "the rest of {text}");
        }
    }
}
