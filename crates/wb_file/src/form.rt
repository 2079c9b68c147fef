//! Settings of a database by which a store can't read it. The kit's SQLite reads only UTF-8, and no database with an automatic vacuum. It reads no row that is
//! older than a column with a default, which another program added.
use crate::cause::FileCause;
use std::fs::File;
use std::os::unix::fs::FileExt;

/// Number of bytes at the beginning of the file that are inspected: a page of the size that a store makes. It has the texts of the tables.
const INSPECTED: usize = 4_096;

/// The last byte of the encoding in a database's header: 1 is UTF-8, 2 and 3 are UTF-16, and 0 is a database without a table.
const ENCODING: usize = 59;

const UTF_8: u8 = 1;

/// Where the four bytes of the greatest root page begin in the header. They are 0 without an automatic vacuum.
const GREATEST_ROOT: usize = 52;

/// The word in a table's text that gives a column a default. A table that was made with one is read, so it is a cause only if a file can't be read.
const DEFAULT: &[u8] = b"DEFAULT";

/// Clears the bit by which a small letter differs from its capital.
const CAPITAL: u8 = 0xdf;

/// Returns what another program set in the database, so that a store can't read it. None if the look finds nothing.
pub(crate) fn cause_of_form(file: &File) -> Option<FileCause> {
    let mut page = [0u8; INSPECTED];
    if file.read_at(&mut page, 0).is_err() {
        return None;
    }
    if page[ENCODING] > UTF_8 {
        return Some(FileCause::TextEncoding);
    }
    if page[GREATEST_ROOT..GREATEST_ROOT + 4] != [0, 0, 0, 0] {
        return Some(FileCause::AutoVacuum);
    }
    if has_word(&page, DEFAULT) {
        return Some(FileCause::ColumnDefault);
    }
    None
}

/// Returns true if the word is in the bytes, in letters of either case.
fn has_word(bytes: &[u8], word: &[u8]) -> bool {
    for at in 0..bytes.len() {
        if begins_with(&bytes[at..], word) {
            return true;
        }
    }
    false
}

fn begins_with(bytes: &[u8], word: &[u8]) -> bool {
    if bytes.len() < word.len() {
        return false;
    }
    for i in 0..word.len() {
        if bytes[i] & CAPITAL != word[i] {
            return false;
        }
    }
    true
}
