//! What is told of an exchange of the office: what was asked, under which key, and what the answer begins with.
use arrayvec::ArrayString;
use std::fmt;
use std::fmt::{Display, Write};
use wb_messages::Request;
use wb_station::Judged;

/// The most bytes that are told of one part.
const MOST: usize = 64;

/// The most bytes that are told of a request.
const ROOM: usize = 160;

/// A request, in the words in which it is told.
pub(crate) type RequestText = ArrayString<ROOM>;

/// Bytes that came from a client or go to one, as a text within a line.
#[derive(Clone, Copy)]
struct Shown<'a>(&'a [u8]);

impl Display for Shown<'_> {
    fn fmt<W: fmt::Write>(&self, f: &mut fmt::Formatter<W>) -> fmt::Result {
        for byte in self.0.iter().take(MOST) {
            let is_plain = byte.is_ascii_graphic() || *byte == b' ';
            f.write_char(if is_plain { char::from(*byte) } else { '?' })?;
        }
        Ok(())
    }
}

/// Returns the first line of a request as it came, and the key of a weighing or void. Only the key of a request with a fault of HTTP is read from its form.
pub(crate) fn asked(request: &Judged) -> RequestText {
    let (head, form) = parts_of(request.bytes());
    let line = first_line(head);
    let mut told = RequestText::new();
    let _ = write!(
        told,
        "{}",
        Shown(line.strip_suffix(b" HTTP/1.1").unwrap_or(line))
    );
    let key = match request.result() {
        Ok(Request::Weigh { key, .. }) | Ok(Request::VoidOpen { key, .. }) => {
            Some(key.as_str().as_bytes())
        }
        Ok(_) => None,
        Err(_) => key_of(form),
    };
    if let Some(key) = key {
        let _ = write!(told, " key {}", Shown(key));
    }
    told
}

/// A response's status, and the first line of its body, unless that is a table. A response that was withheld is `nothing`.
#[derive(Clone, Copy)]
pub(crate) struct Answered<'a> {
    pub(crate) status: u16,
    pub(crate) response: &'a [u8],
}

impl Display for Answered<'_> {
    fn fmt<W: fmt::Write>(&self, f: &mut fmt::Formatter<W>) -> fmt::Result {
        if self.response.is_empty() {
            return f.write_str("nothing");
        }
        let (_, body) = parts_of(self.response);
        write!(f, "{}", self.status)?;
        let line = first_line(body);
        if line.is_empty() || line.contains(&b',') {
            return Ok(());
        }
        write!(f, " {}", Shown(line))
    }
}

/// The head of a message without its empty line, and what follows it.
fn parts_of(message: &[u8]) -> (&[u8], &[u8]) {
    let Some(end) = message
        .windows(4)
        .position(|it| it == b"\r\n\r\n".as_slice())
    else {
        return (message, b"");
    };
    let (head, rest) = message.split_at(end);
    (head, rest.get(4..).unwrap_or(b""))
}

/// A text up to its first line's end.
fn first_line(text: &[u8]) -> &[u8] {
    let end = text
        .iter()
        .position(|byte| *byte == b'\r' || *byte == b'\n');
    text.get(..end.unwrap_or(text.len())).unwrap_or(text)
}

/// The value of the form's first field `key`, as it came.
fn key_of(form: &[u8]) -> Option<&[u8]> {
    form.split(|byte| *byte == b'&')
        .find_map(|field| field.strip_prefix(b"key="))
}
